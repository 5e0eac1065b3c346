ghost use Rattle.std.specs.Prelude.{◌≡◌, ◌^◌, ◌≤◌, ℕ, List, true, false, is_some, unwrap_or, length, get_or, if◌then◌else◌};
ghost use Rattle.std.specs.Option.{option_to_list};
ghost use Rattle.hn_base.specs.Words.{Took};
ghost use Rattle.hn_radv.specs.Sender.{started_sender, solicited, is_due, draws, sent};

use hn_base::Moment;
use hn_io::Draw;
use std::marker::Model;

/// The least time between two advertisements, MIN_DELAY_BETWEEN_RAS, in milliseconds (RFC 4861, section 10).
const LEAST_BETWEEN: u64 = 3000;

/// A solicitation is answered within so many milliseconds, MAX_RA_DELAY_TIME (RFC 4861, section 10).
const LONGEST_DELAY: u32 = 500;

/// How long after each of the first three the next one is due, MAX_INITIAL_RTR_ADVERT_INTERVAL, in milliseconds (RFC 4861,
/// section 10).
const FIRST_INTERVAL: u64 = 16_000;

/// The least time until the next one after that, MinRtrAdvInterval, in milliseconds (RFC 4861, section 6.2.1).
const LEAST_INTERVAL: u64 = 198_000;

/// So many milliseconds more at most: up to MaxRtrAdvInterval, which is 600,000 (RFC 4861, section 6.2.1).
const MORE_INTERVAL: u32 = 402_000;

/// So many are counted.
const MOST_COUNTED: u8 = 4;

/// When an endpoint sends its Router Advertisements (RFC 4861, sections 6.2.4 and 6.2.6). The first is due at once. After
/// each of the first three the next is due in 16 s, and after each later one in 198 to 600 s. Two are never within 3 s.
#[derive(Clone, Copy)]
pub struct Sender {
    /// How many were sent, 0 to 4. It stays at 4.
    pub count: u8,
    /// When the last one was sent, in milliseconds, at most 2^48.
    pub last: Option<Moment>,
    /// When the next one is due, in milliseconds, below 2^49 and at least 3,000 ms after the last one.
    pub next: Moment,
}

impl Model for Sender {
    ghost use Rattle.hn_radv.specs.Sender.{PlainSender, IsSpacedSender};
    ghost use Rattle.hn_radv.specs.Inside.{plain_sender};

    ghost Value = { PlainSender };

    ghost view = { plain_sender };

    ghost invariant = { λ s. IsSpacedSender (plain_sender s) };

    ghost inverse = { λ s. record { count = s.count; last = s.last; next = s.next } };
}

impl Sender {
    /// A sender that begins now, a moment of at most 2^48 ms. The first one is due at once. Never allocates.
    pub fn start(now: Moment) -> Sender
        requires { now ≤ 2 ^ 48 }
        ensures { result ≡ started_sender now }
    {
        Sender {
            count: 0,
            last: None,
            next: now,
        }
    }

    /// A solicitation comes now, at most 2^48 ms (RFC 4861, section 6.2.6). It is answered 0 to 500 ms later, as the random
    /// number `word` says, but not before the last one is 3,000 ms past. Never allocates.
    pub fn solicit(&mut self, now: Moment, word: u32)
        requires { now ≤ 2 ^ 48 }
        ensures { self.new ≡ solicited now word self.old }
    {
        let answer = now + u64::from(word % (LONGEST_DELAY + 1));
        let answer = match self.last {
            Some(last) => answer.max(last + LEAST_BETWEEN),
            None => answer,
        };
        self.next = self.next.min(answer);
    }

    /// What is advertised has changed now, at most 2^48 ms (RFC 4861, section 6.2.4). So the next one is due as soon as it may
    /// be: now, or 3,000 ms after the last one. Never allocates.
    pub fn changed(&mut self, now: Moment)
        requires { now ≤ 2 ^ 48 }
        ensures { self.new ≡ solicited now 0 self.old }
    {
        self.solicit(now, 0);
    }

    /// The word for the one after the next, where that takes one.
    fn word<D: Draw>(&self, draw: &mut D) -> Option<u32>
        ensures some { is_some result ≡ draws self.now }
        ensures drew { Took (D.words draw.old) (option_to_list result) (D.words draw.new) }
    {
        if self.count + 1 < MOST_COUNTED {
            return None;
        }
        Some(draw.next())
    }

    /// One is sent now.
    fn send(&mut self, now: Moment, word: Option<u32>)
        requires in_range { now ≤ 2 ^ 48 }
        requires word { is_some word ≡ draws self.old }
        ensures { self.new ≡ sent now (unwrap_or word 0) self.old }
    {
        self.count = (self.count + 1).min(MOST_COUNTED);
        self.last = Some(now);
        self.next = match word {
            Some(word) => now + LEAST_INTERVAL + u64::from(word % (MORE_INTERVAL + 1)),
            None => now + FIRST_INTERVAL,
        };
    }

    /// Whether one is due now, at most 2^48 ms (RFC 4861, section 6.2.4). If so it counts as sent. `false` if and only
    /// if the moment of the next one has not come; sender and draw are as before then. With the fourth and each later
    /// one a word says when the next is due. No other call takes a word. Never allocates.
    pub fn due<D: Draw>(&mut self, now: Moment, draw: &mut D) -> bool
        requires { now ≤ 2 ^ 48 }
        ensures answer { result ≡ is_due now self.old }
        ensures not_due { result ≡ false → (self.new ≡ self.old) × (draw.new ≡ draw.old) }
        ensures sent { result ≡ true → (words : List ℕ) × (length words ≡ (if draws self.old then 1 else 0))
            × (self.new ≡ sent now (get_or words 0 0) self.old) × Took (D.words draw.old) words (D.words draw.new) }
    {
        if now < self.next {
            return false;
        }
        let word = self.word(draw);
        self.send(now, word);
        true
    }
}
