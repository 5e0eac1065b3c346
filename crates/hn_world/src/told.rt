//! What a world tells of itself, for those who look at it from outside.

ghost use Rattle.std.specs.Prelude.{◌≡◌};
ghost use Rattle.std.specs.List.{slice_get};

use crate::world::World;
use hn_base::{Name, Version};

impl World {
    /// The version of the language of scripts that the world is of. Never allocates.
    pub fn language_version(&self) -> Version
        ensures { result ≡ self.now.parts.version }
    {
        self.parts.version
    }

    /// The name of the link at a place, in order of definition from place 0; `None` if and only if the place is past the
    /// last. Never allocates.
    pub fn link_at(&self, place: usize) -> Option<Name>
        ensures { result ≡ slice_get self.now.parts.links place }
    {
        self.parts.links.get(place).copied()
    }
}
