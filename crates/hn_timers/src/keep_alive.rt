ghost use Rattle.std.specs.Prelude.{◌≡◌, ◌≤◌, ◌^◌};
ghost use Rattle.hn_base.specs.Sooner.{IsSooner};
ghost use Rattle.hn_timers.specs.Due.{IsExpiryMoment};
ghost use Rattle.hn_timers.specs.KeepAlive.{is_expired, is_keep_alive_due, silence_end};

use hn_base::{KEEP_ALIVE_INTERVAL, Moment, sooner};

/// Over `KEEP_ALIVE_MULTIPLIER_DENOMINATOR`, how many intervals of silence remove a peer: 2.1
/// (`DNCP_KEEPALIVE_MULTIPLIER` of RFC 7788, section 3).
pub const KEEP_ALIVE_MULTIPLIER_NUMERATOR: u64 = 21;

/// See `KEEP_ALIVE_MULTIPLIER_NUMERATOR`.
pub const KEEP_ALIVE_MULTIPLIER_DENOMINATOR: u64 = 10;

/// Whether a peer that was last heard at `contact`, and that promised a message each `interval` milliseconds, is
/// to be removed: for 2.1 intervals or more nothing was heard (RFC 7787, section 6.1.5). An interval of 0 says that
/// no keep-alives are sent, and never expires (RFC 7787, section 7.3.2). Never allocates.
pub fn expired(contact: Moment, interval: u32, now: Moment) -> bool
    requires { now ≤ 2 ^ 48 }
    ensures { result ≡ is_expired contact interval now }
{
    interval > 0
        && KEEP_ALIVE_MULTIPLIER_DENOMINATOR * now.saturating_sub(contact)
            >= KEEP_ALIVE_MULTIPLIER_NUMERATOR * u64::from(interval)
}

/// The moment at which such a peer expires, where that is after now and before `best`; else `best`. Never allocates.
pub fn next_expiry(contact: Moment, interval: u32, now: Moment, best: Moment) -> Moment
    ensures { IsSooner (IsExpiryMoment contact interval) now best result }
{
    if interval == 0 {
        return best;
    }
    let silence = (KEEP_ALIVE_MULTIPLIER_NUMERATOR * u64::from(interval)
        + (KEEP_ALIVE_MULTIPLIER_DENOMINATOR - 1))
        / KEEP_ALIVE_MULTIPLIER_DENOMINATOR;
    sooner(now, best, contact.saturating_add(silence))
}

/// Whether a keep-alive is due, where a network state was last sent at `sent`: that was `KEEP_ALIVE_INTERVAL` ago
/// or longer (RFC 7787, section 6.1.2). Never allocates.
pub fn is_keep_alive_due(sent: Moment, now: Moment) -> bool
    ensures { result ≡ is_keep_alive_due sent now }
{
    now.saturating_sub(sent) >= u64::from(KEEP_ALIVE_INTERVAL)
}

/// The moment from which a keep-alive is due, where that is after now and before `best`; else `best`. Never allocates.
pub fn next_silence(sent: Moment, now: Moment, best: Moment) -> Moment
    ensures { IsSooner (λ m. m ≡ silence_end sent) now best result }
{
    sooner(
        now,
        best,
        sent.saturating_add(u64::from(KEEP_ALIVE_INTERVAL)),
    )
}
