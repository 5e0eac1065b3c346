//! Laws of reachability. Each is the contract of a function that does nothing: call it to know its law.

ghost use Rattle.hn_graph.specs.Following.{ReachabilityFollows};
ghost use Rattle.hn_graph.specs.Laws.{OwnIsReachable, ReachableIsANode, ReachabilityStays, ReachabilityOfLater};
ghost use Rattle.hn_graph.specs.SameLinks.{SameLinksReach};

/// The own node is reachable.
pub fn own_is_reachable()
    ensures { OwnIsReachable }
{}

/// What is reachable is one of the nodes.
pub fn reachable_is_a_node()
    ensures { ReachableIsANode }
{}

/// Where each reachable node is still there and no node is new, the same nodes are reachable. So forgetting nodes that
/// are not reachable changes nothing, nor does time while no age comes to its limit.
pub fn reachability_stays()
    ensures { ReachabilityStays }
{}

/// Where each reachable node is still there and says the same peers, and no node is new, the same nodes are reachable. So
/// other node data with the same peers change nothing.
pub fn same_links_reach()
    ensures { SameLinksReach }
{}

/// While time passes and no age comes to its limit, the same nodes are reachable.
pub fn reachability_of_later()
    ensures { ReachabilityOfLater }
{}

/// What is reachable is so among nodes that say as much of their peers: which other node data they have changes nothing.
pub fn reachability_follows()
    ensures { ReachabilityFollows }
{}
