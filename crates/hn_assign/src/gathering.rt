ghost use Rattle.std.specs.Prelude.{◌≡◌, ◌↔◌, ◌⊎◌, ◌^◌, ◌≤◌, IfOk, OnOk, Contains};
ghost use Rattle.hn_data.specs.View.{plain_view, IsNetwork};
ghost use Rattle.hn_assign.specs.declared.advertised.Advertised.{Advertised};
ghost use Rattle.hn_assign.specs.Gathered.{IsSaidByNode, IsOfOther, IsOwn, AreAdvertised};

use crate::advertised::Advertised;
use hn_base::{Key, NoMemory, NodeId, Sequence};
use hn_data::{Entry, View, version};
use hn_pair::{Assigned, Held};
use std::alloc::Global;

/// Advertised prefixes, in no order.
pub type AdvertisedPrefixes = Sequence<Advertised>;

/// The advertised prefixes as a router sees them: the Assigned-Prefix TLVs of the other reachable nodes that have an
/// HNCP-Version, and the router's own published assignments (RFC 7695, section 2; RFC 7788, section 10.3).
///
/// # Errors
///
/// Out of memory.
pub fn gather(alloc: Global, view: &View<'_>, held: &Held) -> Result<AdvertisedPrefixes, NoMemory>
    requires { IsNetwork view.now.own.0 view.now.nodes.now }
    ensures { IfOk result (AreAdvertised (plain_view view.entry.now) held.now.assigned) }
{
    let mut items = Vec::with_capacity(alloc, view.nodes.len())?;
    add_others(&mut items, view.own, view.nodes)?;
    add_own(&mut items, view.own, held.assigned.as_slice())?;
    Ok(AdvertisedPrefixes::from(items))
}

/// Adds what other nodes advertise.
fn add_others(items: &mut Vec<Advertised>, own: NodeId, nodes: &[Entry]) -> Result<(), NoMemory>
    ensures { OnOk result ((a : Advertised) → Contains items.new.items a
        ↔ (Contains items.old.items a ⊎ ((entry : Entry) × Contains nodes.now entry × IsOfOther own.0 entry a))) }
{
    for node in nodes {
        add_other(items, own, node)?;
    }
    Ok(())
}

/// Adds what a node advertises, where it is another one and has an HNCP-Version.
pub(crate) fn add_other(
    items: &mut Vec<Advertised>,
    own: NodeId,
    node: &Entry,
) -> Result<(), NoMemory>
    ensures { OnOk result ((a : Advertised) → Contains items.new.items a
        ↔ (Contains items.old.items a ⊎ IsOfOther own.0 node.now a)) }
{
    if node.id == own || version(&node.body).is_none() {
        return Ok(());
    }
    add_node(items, node)
}

/// Adds the Assigned-Prefix TLVs of a node.
fn add_node(items: &mut Vec<Advertised>, node: &Entry) -> Result<(), NoMemory>
    ensures { OnOk result ((a : Advertised) → Contains items.new.items a
        ↔ (Contains items.old.items a ⊎ IsSaidByNode node.now a)) }
{
    for said in node.body.assigned() {
        items.push(Advertised {
            key: Key {
                priority: said.priority,
                node: node.id,
                endpoint: said.endpoint,
            },
            prefix: said.prefix,
        })?;
    }
    Ok(())
}

/// Adds what the router itself advertises.
pub(crate) fn add_own(
    items: &mut Vec<Advertised>,
    own: NodeId,
    assigned: &[Assigned],
) -> Result<(), NoMemory>
    ensures { OnOk result ((a : Advertised) → Contains items.new.items a
        ↔ (Contains items.old.items a ⊎ ((c : Assigned) × Contains assigned.now c × IsOwn own.0 c a))) }
{
    for c in assigned {
        add_assigned(items, own, c)?;
    }
    Ok(())
}

/// Adds an assignment of the router's own, where it is published.
fn add_assigned(items: &mut Vec<Advertised>, own: NodeId, c: &Assigned) -> Result<(), NoMemory>
    ensures { OnOk result ((a : Advertised) → Contains items.new.items a
        ↔ (Contains items.old.items a ⊎ IsOwn own.0 c.now a)) }
{
    let Some(priority) = c.published else {
        return Ok(());
    };
    items.push(Advertised {
        key: Key {
            priority,
            node: own,
            endpoint: c.endpoint,
        },
        prefix: c.prefix,
    })?;
    Ok(())
}
