ghost use Rattle.std.specs.Prelude.{◌≡◌, ◌++◌, ◌-◌, ◌^◌, ◌≤◌, is_some, unwrap_or, length, replicate};
ghost use Rattle.std.specs.Option.{option_to_list};
ghost use Rattle.hn_base.specs.Words.{Took};
ghost use Rattle.hn_timers.specs.Interval.{has_to_send, is_interval_over};
ghost use Rattle.hn_timers.specs.KeepAlive.{is_keep_alive_due};
ghost use Rattle.hn_dncp.specs.Tick.{after_firing, after_interval, after_keep_alive, tick_words, ticked, tick_sends, words_of_tick};

use crate::port::Port;
use hn_base::Moment;
use hn_io::{Draw, words_join};
use hn_timers::is_keep_alive_due;

/// What a tick did at an endpoint.
#[derive(Clone, Copy)]
pub struct Renewed {
    /// Whether to send a Network State now.
    pub sends: bool,
    /// How many random words were taken, at most two.
    pub words: u8,
    /// These words in order, and zeros after them.
    pub drawn: [u32; 2],
}

impl Renewed {
    /// The words that were taken. Never allocates.
    pub fn taken(&self) -> &[u32]
        requires { self.now.words ≤ 2 }
        ensures { result.now ≡ words_of_tick self.now }
    {
        &self.drawn[..usize::from(self.words)]
    }
}

impl Port {
    // Trickle fires, where its time has come: whether a Network State is sent.
    fn fire(&mut self, now: Moment) -> bool
        requires { now ≤ 2 ^ 48 }
        ensures sends { result ≡ has_to_send now self.old.trickle }
        ensures port { self.new ≡ after_firing now self.old }
    {
        let sends = self.trickle.fires(now);
        if sends {
            self.sent = now;
        }
        sends
    }

    // The next interval begins, where the old one has ended: the word that it took.
    fn begin_next<D: Draw>(&mut self, now: Moment, draw: &mut D) -> Option<u32>
        requires { now ≤ 2 ^ 48 }
        ensures port { self.new ≡ after_interval now (unwrap_or result 0) self.old }
        ensures word { is_some result ≡ is_interval_over now self.old.trickle }
        ensures drew { Took (D.words draw.old) (option_to_list result) (D.words draw.new) }
    {
        if !self.trickle.ended(now) {
            return None;
        }
        let word = draw.next();
        self.trickle.next(now, word);
        Some(word)
    }

    // A keep-alive is sent, where one is due: the word that the new interval took.
    fn keep_alive<D: Draw>(&mut self, now: Moment, draw: &mut D) -> Option<u32>
        requires { now ≤ 2 ^ 48 }
        ensures port { self.new ≡ after_keep_alive now (unwrap_or result 0) self.old }
        ensures word { is_some result ≡ is_keep_alive_due self.old.sent now }
        ensures drew { Took (D.words draw.old) (option_to_list result) (D.words draw.new) }
    {
        if !is_keep_alive_due(self.sent, now) {
            return None;
        }
        let word = draw.next();
        self.trickle.again(now, word);
        self.sent = now;
        Some(word)
    }

    /// A tick of the router at this endpoint: Trickle fires where its time has come (RFC 6206, section 4.2, step 4);
    /// then the next interval begins where the old one has ended (step 5); then, where no Network State was sent for
    /// 20 seconds, one is sent as a keep-alive, and an interval of the same length begins (RFC 7787, section 6.1.2).
    /// Never allocates.
    pub fn tick<D: Draw>(&mut self, now: Moment, draw: &mut D) -> Renewed
        requires { now ≤ 2 ^ 48 }
        ensures port { self.new ≡ ticked now (words_of_tick result) self.old }
        ensures sends { result.sends ≡ tick_sends now self.old }

        // The words: how many, which in which order, and zeros after them.
        ensures words { result.words ≡ tick_words now self.old }
        ensures at_most_two { result.words ≤ 2 }
        ensures count { length (words_of_tick result) ≡ tick_words now self.old }
        ensures drawn { result.drawn ≡ words_of_tick result ++ replicate (2 - result.words) 0 }
        ensures drew { Took (D.words draw.old) (words_of_tick result) (D.words draw.new) }
    {
        words_join();
        let fires = self.fire(now);
        let next = self.begin_next(now, draw);
        let again = self.keep_alive(now, draw);
        let sends = fires || again.is_some();
        let (words, drawn) = match (next, again) {
            (None, None) => (0, [0, 0]),
            (Some(word), None) | (None, Some(word)) => (1, [word, 0]),
            (Some(first), Some(second)) => (2, [first, second]),
        };
        Renewed {
            sends,
            words,
            drawn,
        }
    }
}
