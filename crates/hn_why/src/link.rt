use hn_base::Name;
use hn_world::World;
use std::fmt;

/// What a link is called: its name, `-` where there is none.
#[derive(Clone, Copy)]
pub struct LinkName {
    name: Option<Name>,
}

impl LinkName {
    ghost use Rattle.std.specs.Prelude.{◌≡◌};
    ghost use Rattle.std.specs.List.{slice_get};

    /// Of the link at a place in order of definition. Never allocates.
    pub(crate) fn at(world: &World, place: usize) -> LinkName
        ensures { result.name ≡ slice_get world.now.parts.links place }
    {
        LinkName {
            name: world.link_at(place),
        }
    }
}

impl fmt::Display for LinkName {
    ghost use Rattle.std.specs.Prelude.{Some};
    ghost use Rattle.hn_why.specs.Words.{name_or_dash};

    ghost output = { λ link. Some (name_or_dash link.name) };

    fn fmt<W: fmt::Write>(&self, f: &mut fmt::Formatter<W>) -> fmt::Result {
        match self.name {
            Some(name) => write!(f, "{name}"),
            None => write!(f, "-"),
        }
    }
}
