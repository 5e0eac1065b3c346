//! Lifetimes of delegated prefixes, kept as the moments at which they end (RFC 7788, section 10.2.1).

ghost use Rattle.std.specs.Prelude.{◌≡◌, ◌≤◌, ◌^◌};
ghost use Rattle.hn_own.specs.Lifetimes.{end_after, has_ended, seconds_left};

use hn_base::Moment;

/// A lifetime in seconds that never ends.
const ENDLESS: u32 = u32::MAX;

/// The longest other lifetime, in seconds.
const LONGEST: u64 = (1 << 32) - 2;

/// When a lifetime of so many seconds ends that begins now; `None` if it never does.
pub(crate) fn end_after(now: Moment, seconds: u32) -> Option<Moment>
    requires { now ≤ 2 ^ 48 }
    ensures { result ≡ end_after now seconds }
{
    if seconds == ENDLESS {
        None
    } else {
        Some(now + 1000 * u64::from(seconds))
    }
}

/// Whether a lifetime has ended.
pub(crate) fn has_ended(now: Moment, end: Option<Moment>) -> bool
    ensures { result ≡ has_ended now end }
{
    match end {
        None => false,
        Some(end) => end <= now,
    }
}

/// The seconds of a lifetime that are left, rounded up.
pub(crate) fn seconds_left(now: Moment, end: Option<Moment>) -> u32
    ensures { result ≡ seconds_left now end }
{
    match end {
        None => ENDLESS,
        Some(end) => end.saturating_sub(now).div_ceil(1000).min(LONGEST) as u32,
    }
}
