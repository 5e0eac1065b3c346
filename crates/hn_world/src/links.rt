ghost use Rattle.std.specs.Prelude.{◌≡◌, [], length, option_copied, position};
ghost use Rattle.std.specs.List.{slice_get};
ghost use Rattle.hn_base.specs.Name.{name_text};
ghost use Rattle.hn_world.specs.Names.{is_link_named};

use hn_base::Name;
use std::alloc::Global;
use std::marker::Model;

/// The links of a world, by their names, in order of definition.
#[derive(Drop)]
pub struct Links {
    pub(crate) items: Vec<Name>,
}

impl Model for Links {
    ghost use Rattle.std.specs.Prelude.{List};
    ghost use Rattle.hn_base.specs.declared.name.Name.{Name};

    ghost Value = { List Name };

    ghost view = { λ l. l.items.items };
}

impl Links {
    /// No links. Never allocates.
    pub(crate) fn new(alloc: Global) -> Links
        ensures { result ≡ [] }
    {
        Links {
            items: Vec::new(alloc),
        }
    }

    /// How many there are. Never allocates.
    pub(crate) fn len(&self) -> usize
        ensures { result ≡ length self.now }
    {
        self.items.len()
    }

    /// The name of the link at a place. Never allocates.
    pub(crate) fn get(&self, place: usize) -> Option<&Name>
        ensures { option_copied result ≡ slice_get self.now place }
    {
        self.items.get(place)
    }

    /// The place of the link of a name. Never allocates.
    pub(crate) fn place_of(&self, name: &Name) -> Option<usize>
        ensures { result ≡ position (is_link_named (name_text name.now)) self.now }
    {
        self.items
            .iter()
            .position(|link| link.as_str() == name.as_str())
    }
}
