//! The generated prefixes that a router sees.

ghost use Rattle.std.specs.Prelude.{◌≡◌, ◌↔◌, IsTrue, IfOk};
ghost use Rattle.hn_rules.specs.Seen.{seen_by};
ghost use Rattle.hn_ula.specs.Ula.{local_block, IsLocal};
ghost use Rattle.hn_ula.specs.Said.{IsLocalSite, AreGenerated};

use hn_addr::{OfNode, from_nodes};
use hn_base::{NoMemory, NodeId};
use hn_data::{Delegation, NodeData};
use hn_prefix::Prefix;
use hn_router::Router;
use std::alloc::Global;

/// The lowest address inside fd00::/8.
const LOCAL_BITS: u128 = 0xfd << 120;

/// The length of a generated prefix: 8 bits and the 40 of the Global ID (RFC 4193, section 3.1).
pub(crate) const SITE_LENGTH: u8 = 48;

/// A generated prefix, and a node that has it.
#[derive(Clone, Copy)]
pub(crate) struct Generated {
    pub node: NodeId,
    pub prefix: Prefix,
}

/// fd00::/8, the prefixes whose Global ID is locally assigned (RFC 4193, section 3.1).
fn local_block() -> Prefix
    ensures { result ≡ local_block }
{
    Prefix::containing(LOCAL_BITS, 8)
}

/// Whether a prefix is inside fd00::/8.
pub(crate) fn is_local(prefix: &Prefix) -> bool
    ensures { IsTrue result ↔ IsLocal prefix.now }
{
    local_block().contains(prefix)
}

/// Whether a prefix is a /48 inside fd00::/8.
fn is_local_site(prefix: &Prefix) -> bool
    ensures { IsTrue result ↔ IsLocalSite prefix.now }
{
    prefix.len() == SITE_LENGTH && is_local(prefix)
}

impl OfNode for Generated {
    ghost use Rattle.hn_data.specs.Delegations.{HasDelegation};
    ghost use Rattle.hn_ula.specs.Said.{IsOfDelegation};

    type Part = Delegation;

    ghost says = { HasDelegation };

    ghost makes = { IsOfDelegation };

    fn parts(body: &NodeData) -> &[Delegation] {
        body.delegations()
    }

    fn from_part(node: NodeId, part: &Delegation) -> Option<Generated> {
        if is_local_site(&part.prefix) {
            Some(Generated {
                node,
                prefix: part.prefix,
            })
        } else {
            None
        }
    }
}

/// The generated prefixes of the reachable nodes, each with its node.
pub(crate) fn of_router(alloc: Global, router: &Router) -> Result<Vec<Generated>, NoMemory>
    ensures { IfOk result (λ list. AreGenerated (seen_by router.now) list.items) }
{
    from_nodes(alloc, router)
}
