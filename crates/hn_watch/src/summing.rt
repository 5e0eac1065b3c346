//! What is seen of the nodes, by what is remembered.

ghost use Rattle.std.specs.Prelude.{◌≡◌, ◌^◌, ◌<◌, List, All, IfOk};
ghost use Rattle.std.specs.BTreeMap.{IsOrdered};
ghost use Rattle.hn_watch.specs.Claim.{number_cmp};
ghost use Rattle.hn_watch.specs.Seen.{AreSeen};
ghost use Rattle.hn_watch.specs.Remembered.{Remembers, is_differing, conflicts_in, seen_of};

use crate::claim::{Claim, NodeNumber};
use crate::remembered::Remembered;
use crate::seen::Seen;
use crate::shown::Shown;
use hn_base::{NoMemory, NodeId, Sequence};
use std::alloc::Global;

// Whether a place has a claim that differs.
fn is_differing(place: &Option<Claim>) -> bool
    ensures { result ≡ is_differing place.now }
{
    match place {
        Some(claim) => claim.differs,
        None => false,
    }
}

impl Remembered {
    // With how many of its numbers a node was shown with different hashes. Never allocates.
    fn conflicts(&self, node: NodeId) -> u64
        ensures count { result ≡ conflicts_in self.now.claims.entries node }
        ensures ordered { IsOrdered number_cmp self.now.claims }
    {
        let first = NodeNumber { node, number: 0 };
        let last = NodeNumber {
            node,
            number: u32::MAX,
        };
        let places = self.claims.range(first..=last);
        places.filter(|place| is_differing(place.1)).count() as u64
    }

    // What is seen of a node, of which this is kept.
    fn seen_of(&self, kept: &Shown) -> Seen
        ensures seen { result ≡ seen_of self.now.claims.entries kept.now }
        ensures ordered { IsOrdered number_cmp self.now.claims }
    {
        Seen {
            node: kept.node,
            number: kept.number,
            hash: kept.hash,
            conflicts: self.conflicts(kept.node),
        }
    }

    /// What is seen of each node, in ascending order of identifier.
    pub(crate) fn seen(&self, alloc: Global) -> Result<Sequence<Seen>, NoMemory>
        ensures { IfOk result (λ seen. (shown : List Shown) → All (λ s. s.number < 2 ^ 32) shown
            → Remembers shown self.now → AreSeen shown seen) }
    {
        let mut seen = Sequence::new(alloc);
        for (_, kept) in &self.kept {
            if let Some(kept) = kept {
                seen.push(self.seen_of(kept))?;
            }
        }
        Ok(seen)
    }
}
