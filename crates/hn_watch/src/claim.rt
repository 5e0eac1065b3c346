ghost use Rattle.std.specs.Prelude.{◌≡◌, ℕ, List, [], ◌∷◌, ◌++◌, Some};

use crate::shown::Shown;
use hn_base::NodeId;

/// A sequence number of a node. They are ordered by node, then number.
#[derive(Clone, Copy, PartialEq, Eq, PartialOrd, Ord)]
pub struct NodeNumber {
    pub node: NodeId,
    pub number: u32,
}

/// What is remembered of a node and a sequence number: the first hash that was shown with them, and whether another
/// was. A third one says nothing more.
#[derive(Clone, Copy)]
pub struct Claim {
    pub hash: [u8; 8],
    pub differs: bool,
}

impl NodeNumber {
    ghost use Rattle.hn_watch.specs.Claim.{number_of};

    /// The node and the sequence number that are shown.
    pub(crate) fn of(one: &Shown) -> NodeNumber
        ensures { result ≡ number_of one.now }
    {
        NodeNumber {
            node: one.node,
            number: one.number,
        }
    }
}

impl Claim {
    ghost use Rattle.hn_watch.specs.Claim.{IsClaimOf};

    /// The claim after a hash was shown, by the claim before.
    pub(crate) fn after(before: Option<Claim>, hash: [u8; 8]) -> Claim
        ensures { (hashes : List (List ℕ)) → IsClaimOf hashes before → IsClaimOf (hashes ++ hash ∷ []) (Some result) }
    {
        match before {
            None => Claim {
                hash,
                differs: false,
            },
            Some(claim) => Claim {
                hash: claim.hash,
                differs: claim.differs || claim.hash != hash,
            },
        }
    }
}
