ghost use Rattle.std.specs.Prelude.{◌≡◌};
ghost use Rattle.hn_dncp.specs.Ask.{may_ask, asked};

use crate::port::Port;
use hn_base::Moment;

/// The least time between two requests for the network state that are sent on an endpoint, in milliseconds (RFC 7787,
/// section 4.4).
pub const LEAST_TIME_BETWEEN_REQUESTS: u64 = 200;

impl Port {
    /// Whether the endpoint may ask now for the network state: no request was sent in the last 200 ms (RFC 7787, section
    /// 4.4). Never allocates.
    pub fn may_ask(&self, now: Moment) -> bool
        ensures { result ≡ may_ask now self.now.asked }
    {
        match self.asked {
            None => true,
            Some(last) => now.saturating_sub(last) >= LEAST_TIME_BETWEEN_REQUESTS,
        }
    }

    /// Whether to ask now for the network state (RFC 7787, section 4.4): no request was sent in the last 200 ms. Where
    /// the answer is yes, this is the moment of the last request. Never allocates.
    pub fn ask(&mut self, now: Moment) -> bool
        ensures answer { result ≡ may_ask now self.old.asked }
        ensures port { self.new ≡ asked now self.old }
    {
        let due = self.may_ask(now);
        if due {
            self.asked = Some(now);
        }
        due
    }
}
