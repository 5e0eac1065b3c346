//! Why a call on the router of a name is refused.

ghost use Rattle.std.specs.Prelude.{◌≡◌};
ghost use Rattle.hn_world.specs.Asked.{unless_known, unless_runs, unless_both_run};

use crate::refusal::{STOPPED, UNKNOWN};
use crate::world::World;
use hn_base::Name;

impl World {
    /// The code 7 where there is no router of that name; `None` if and only if there is one. Never allocates.
    pub fn unless_known(&self, name: &Name) -> Option<u8>
        ensures { result ≡ unless_known name.now self.now.parts }
    {
        match self.router(name) {
            Some(_) => None,
            None => Some(UNKNOWN),
        }
    }

    /// The code 7 where there is no router of that name, 12 where it is stopped; `None` if and only if it runs. Never
    /// allocates.
    pub fn unless_runs(&self, name: &Name) -> Option<u8>
        ensures { result ≡ unless_runs name.now self.now.parts }
    {
        if self.router(name).is_none() {
            return Some(UNKNOWN);
        }
        if self.running(name) {
            None
        } else {
            Some(STOPPED)
        }
    }

    /// The code 7 where one of two routers is unknown, which is asked of both first, and 12 where one is stopped;
    /// `None` if and only if both run. Never allocates.
    pub fn unless_both_run(&self, left: &Name, right: &Name) -> Option<u8>
        ensures { result ≡ unless_both_run left.now right.now self.now.parts }
    {
        self.unless_known(left).or(
            self.unless_known(right)
                .or(self.unless_runs(left).or(self.unless_runs(right))),
        )
    }
}
