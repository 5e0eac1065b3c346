ghost use Rattle.std.specs.Prelude.{◌≡◌, ◌≢◌, ◌^◌, ◌≤◌, ◌↔◌, IsTrue};
ghost use Rattle.hn_base.specs.Sooner.{IsSooner};
ghost use Rattle.hn_timers.specs.Due.{IsIntervalDue, IsIntervalUndue};
ghost use Rattle.hn_timers.specs.Length.{IsLength, next_length};

use hn_base::{Moment, sooner};
use std::marker::Model;

/// The length of the shortest interval, Imin, in milliseconds (RFC 7788, section 3).
pub const SHORTEST_INTERVAL: u32 = 200;

/// The length of the longest interval, in milliseconds: Imin doubled seven times (RFC 7788, section 3).
pub const LONGEST_INTERVAL: u32 = 25_600;

/// A Trickle timer with redundancy constant k = 1, in one of its intervals (RFC 6206, section 4).
/// The length is one of the eight 200 * 2^j milliseconds with j from 0 to 7.
#[derive(Clone, Copy)]
pub struct Trickle {
    /// When the interval began.
    pub begin: Moment,
    /// The interval's length I, in milliseconds.
    pub len: u32,
    /// When the timer fires: the time t of the RFC, in the second half of the interval.
    pub fire: Moment,
    /// How many consistent messages were heard in this interval: the counter c.
    pub heard: u32,
    /// Whether the timer has fired in this interval.
    pub done: bool,
}

impl Model for Trickle {
    ghost use Rattle.hn_timers.specs.Interval.{Interval};

    ghost Value = { Interval };

    ghost use Rattle.hn_timers.specs.Interval.{IsInterval};
    ghost use Rattle.hn_timers.specs.Trickle.{interval};

    ghost view = { interval };

    ghost invariant = { λ t. IsInterval (interval t) };

    ghost inverse = { λ i. record { begin = i.begin; len = i.len; fire = i.fire; heard = i.heard; done = i.done } };
}

impl Trickle {
    ghost use Rattle.hn_timers.specs.Interval.{interval_from, one_more_heard, has_to_send, fired, is_interval_over};

    /// An interval of `len` milliseconds that begins now; `word`, a random number, says when in its second half it
    /// fires (RFC 6206, section 4.2, steps 1 and 2). Never allocates.
    pub fn start(now: Moment, len: u32, word: u32) -> Trickle
        requires of_length { IsLength len }
        requires now_in_range { now ≤ 2 ^ 48 }
        ensures { result ≡ interval_from now len word }
    {
        let half = len / 2;
        Trickle {
            begin: now,
            len,
            fire: now + u64::from(half) + u64::from(word % half),
            heard: 0,
            done: false,
        }
    }

    /// Counts a consistent message (RFC 6206, section 4.2, step 3). The count stays at 2^32 - 1. Never allocates.
    pub fn hear(&mut self)
        ensures { self.new ≡ one_more_heard self.old }
    {
        self.heard = self.heard.saturating_add(1);
    }

    /// Whether to send now: the timer's time has come, it has not fired in this interval, and no consistent message
    /// was heard (RFC 6206, section 4.2, step 4). Once its time has come, it has fired, whatever the answer.
    /// Never allocates.
    pub fn fires(&mut self, now: Moment) -> bool
        requires { now ≤ 2 ^ 48 }
        ensures answer { result ≡ has_to_send now self.old }
        ensures fired { self.new ≡ fired now self.old }
    {
        if self.done || now < self.fire {
            return false;
        }
        self.done = true;
        self.heard == 0
    }

    /// Whether the interval is over (RFC 6206, section 4.2, step 5). Never allocates.
    pub fn ended(&self, now: Moment) -> bool
        requires { now ≤ 2 ^ 48 }
        ensures { result ≡ is_interval_over now self.now }
    {
        now >= self.begin + u64::from(self.len)
    }

    /// Whether nothing is due: the timer has fired or its time has not come, and the interval is not over.
    /// Never allocates.
    pub fn is_interval_undue(&self, now: Moment) -> bool
        ensures { IsTrue result ↔ IsIntervalUndue now self.now }
    {
        (self.done || now < self.fire) && now < self.begin + u64::from(self.len)
    }

    /// The first moment after now and before `best` at which the timer fires or the interval ends; else `best`.
    /// Never allocates.
    pub fn next_due(&self, now: Moment, best: Moment) -> Moment
        ensures { IsSooner (IsIntervalDue self.now) now best result }
    {
        let first = if self.done {
            best
        } else {
            sooner(now, best, self.fire)
        };
        sooner(now, first, self.begin + u64::from(self.len))
    }

    /// Begins the next interval now, twice as long and no longer than `LONGEST_INTERVAL` (RFC 6206, section 4.2,
    /// step 5). Never allocates.
    pub fn next(&mut self, now: Moment, word: u32)
        requires { now ≤ 2 ^ 48 }
        ensures { self.new ≡ interval_from now (next_length self.old.len) word }
    {
        *self = Trickle::start(now, (2 * self.len).min(LONGEST_INTERVAL), word);
    }

    /// Begins an interval of the same length now, as one does who has sent a keep-alive (RFC 7787, section 6.1.2).
    /// Never allocates.
    pub fn again(&mut self, now: Moment, word: u32)
        requires { now ≤ 2 ^ 48 }
        ensures { self.new ≡ interval_from now self.old.len word }
    {
        *self = Trickle::start(now, self.len, word);
    }

    /// Begins an interval of the shortest length now, as an inconsistent message asks where the length is not the
    /// shortest already (RFC 6206, section 4.2, step 6). Never allocates.
    pub fn reset(&mut self, now: Moment, word: u32)
        requires longer { self.old.len ≢ SHORTEST_INTERVAL }
        requires now_in_range { now ≤ 2 ^ 48 }
        ensures { self.new ≡ interval_from now SHORTEST_INTERVAL word }
    {
        *self = Trickle::start(now, SHORTEST_INTERVAL, word);
    }
}
