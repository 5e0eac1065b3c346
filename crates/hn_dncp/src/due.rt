ghost use Rattle.std.specs.Prelude.{◌↔◌, IsTrue};
ghost use Rattle.hn_base.specs.Sooner.{IsSooner};
ghost use Rattle.hn_dncp.specs.Due.{IsPortDue, IsPortUndue};

use crate::port::Port;
use hn_base::Moment;
use hn_timers::{is_keep_alive_due, next_silence};

impl Port {
    /// Whether nothing is due: in the interval, and no keep-alive. Never allocates.
    pub fn is_port_undue(&self, now: Moment) -> bool
        ensures { IsTrue result ↔ IsPortUndue now self.now }
    {
        self.trickle.is_interval_undue(now) && !is_keep_alive_due(self.sent, now)
    }

    /// The first moment after now and before `best` at which something is due here; else `best`. Never allocates.
    pub fn next_due(&self, now: Moment, best: Moment) -> Moment
        ensures { IsSooner (IsPortDue self.now) now best result }
    {
        let first = self.trickle.next_due(now, best);
        next_silence(self.sent, now, first)
    }
}
