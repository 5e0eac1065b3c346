ghost use Rattle.std.specs.Prelude.{◌≡◌, None};

use hn_node::Served;

/// What `node` came to.
#[derive(Drop)]
pub struct NodeEnd {
    /// The exit status.
    pub status: u8,
    /// What came of the router, if one was served.
    pub served: Option<Served>,
}

impl NodeEnd {
    /// A status with nothing beside it. Never allocates.
    pub(crate) fn of(status: u8) -> NodeEnd
        ensures status { result.status ≡ status }
        ensures not_served { result.served ≡ None }
    {
        NodeEnd {
            status,
            served: None,
        }
    }
}
