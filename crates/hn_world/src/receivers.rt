//! Which routers are there to receive.

ghost use Rattle.std.specs.Prelude.{◌≡◌, true, IfOk, map, filter};
ghost use Rattle.std.specs.Option.{option_map_or};
ghost use Rattle.hn_world.specs.Receivers.{is_absent, is_away, running_names};
ghost use Rattle.hn_world.specs.Refusal.{copy_at};

use crate::copies::MailCopy;
use crate::member::Member;
use crate::parts::Parts;
use crate::world::World;
use hn_base::{EpId, Name, NoMemory};
use std::alloc::Global;

impl Member {
    /// Whether the router is stopped, or this endpoint is detached.
    fn is_absent(&self, endpoint: EpId) -> bool
        ensures { result ≡ is_absent endpoint self.now }
    {
        !self.running || !self.router.attached(endpoint)
    }
}

impl Parts {
    /// Whether the receiver of a copy cannot get it.
    fn is_away(&self, copy: &MailCopy) -> bool
        ensures { result ≡ is_away self.now copy.now }
    {
        match self.members.get(copy.to.place) {
            Some(member) => member.is_absent(copy.to.endpoint),
            None => true,
        }
    }
}

impl World {
    /// Whether a copy cannot be delivered: the router that it goes to is stopped, or its endpoint is detached. True also
    /// if there is no copy of that number. Never allocates.
    pub fn is_away(&self, copy: u64) -> bool
        ensures { result ≡ option_map_or (is_away self.now.parts) (copy_at self.now.parts copy) true }
    {
        match self.parts.copy_at(copy) {
            Some(copy) => self.parts.is_away(copy),
            None => true,
        }
    }

    /// The names of the routers that run, in order of definition.
    ///
    /// # Errors
    ///
    /// Out of memory.
    pub fn running_names(&self, alloc: Global) -> Result<Vec<Name>, NoMemory>
        ensures { IfOk result (λ names. names.items ≡ running_names self.now.parts) }
    {
        let mut names = Vec::with_capacity(alloc, self.parts.members.as_slice().len())?;
        for member in self.parts.members.as_slice() {
            if member.running {
                names.push(member.name)?;
            }
        }
        Ok(names)
    }
}
