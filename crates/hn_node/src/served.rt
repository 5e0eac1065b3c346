use crate::logged::Logged;
use hn_base::Sequence;
use hn_router::Router;

/// How the turns of a node ended.
#[derive(Clone, Copy, Debug, PartialEq, Eq)]
pub enum ServeEnd {
    /// All turns were made.
    Turns,
    /// The wire failed.
    WireFault,
}

/// What came of a node's turns.
#[derive(Drop)]
pub struct Served {
    /// The router after them.
    pub router: Router,
    /// What happened to it, in order.
    pub log: Sequence<Logged>,
    /// How many datagrams arrived.
    pub taken: u64,
    /// How many datagrams the wire took; it stops at 2^64 - 1.
    pub sent: u64,
    pub end: ServeEnd,
}
