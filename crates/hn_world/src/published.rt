ghost use Rattle.std.specs.Prelude.{◌≡◌, []};

use hn_rules::Publication;
use std::alloc::Global;
use std::marker::Model;

/// What the routers of a world published, in order.
#[derive(Drop)]
pub struct Publications {
    pub(crate) items: Vec<Publication>,
}

impl Model for Publications {
    ghost use Rattle.std.specs.Prelude.{List};
    ghost use Rattle.hn_rules.specs.declared.done.Publication.{Publication};

    ghost Value = { List Publication };

    ghost view = { λ p. p.items.items };
}

impl Publications {
    /// Nothing. Never allocates.
    pub(crate) fn new(alloc: Global) -> Publications
        ensures { result ≡ [] }
    {
        Publications {
            items: Vec::new(alloc),
        }
    }

    /// The publications. Never allocates.
    pub(crate) fn as_slice(&self) -> &[Publication]
        ensures { result.now ≡ self.now }
    {
        self.items.as_slice()
    }
}
