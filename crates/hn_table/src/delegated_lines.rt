//! The lines of the delegated prefixes that a router knows of, and of those that it uses.

ghost use Rattle.std.specs.Prelude.{◌≡◌, ◌++◌, Contains, OnOk, string_bytes};
ghost use Rattle.std.specs.List.{flat_map};
ghost use Rattle.hn_data.specs.View.{plain_view};
ghost use Rattle.hn_deleg.specs.Used.{AreUsable};
ghost use Rattle.hn_store.specs.Loss.{is_among};
ghost use Rattle.hn_table.specs.Delegated.{AreSeenLines, AreAllSeenLines, AreUnseenLines, AreAllUnseenLines, used_line};
ghost use Rattle.hn_table.specs.FateText.{delegated_line};
ghost use Rattle.hn_table.specs.InOrder.{Adds};

use crate::fate::{Fate, fate_of};
use hn_base::NodeId;
use hn_data::{Delegation, Entry, View};
use hn_deleg::{Delegated, whole_seconds};
use hn_store::HeldNode;
use std::alloc::AllocError;

/// Adds the line of a delegated prefix that a node has.
fn push_delegation(
    text: &mut String,
    node: NodeId,
    d: &Delegation,
    fate: &Fate,
) -> Result<(), AllocError>
    ensures { OnOk result (string_bytes text.new ≡ string_bytes text.old ++ delegated_line node d.now fate.now) }
{
    let prefix = d.prefix.text();
    let valid = d.valid;
    let preferred = d.preferred;
    write!(
        text,
        "delegated {prefix} node={node} valid={valid} preferred={preferred} {fate}\n"
    )
}

/// Adds a line for each delegated prefix of a node that the router sees.
fn push_seen(
    text: &mut String,
    view: &View<'_>,
    used: &[Delegated],
    node: &Entry,
) -> Result<(), AllocError>
    requires usable { AreUsable (plain_view view.now) used.now }
    requires seen { Contains view.now.nodes.now node.now }
    ensures { OnOk result (Adds (AreSeenLines (plain_view view.entry.now) used.now node.now) (string_bytes text.old) (string_bytes text.new)) }
{
    for d in node.body.delegations() {
        let fate = fate_of(view, used, node, d);
        push_delegation(text, node.id, d, &fate)?;
    }
    Ok(())
}

/// Adds these lines for each node that the router sees.
pub(crate) fn push_all_seen(
    text: &mut String,
    view: &View<'_>,
    used: &[Delegated],
) -> Result<(), AllocError>
    requires { AreUsable (plain_view view.now) used.now }
    ensures { OnOk result (Adds (AreAllSeenLines (plain_view view.entry.now) used.now) (string_bytes text.old) (string_bytes text.new)) }
{
    for node in view.nodes {
        push_seen(text, view, used, node)?;
    }
    Ok(())
}

/// Adds a line for each delegated prefix of a held node that is not reachable.
fn push_unseen(text: &mut String, node: &HeldNode) -> Result<(), AllocError>
    ensures { OnOk result (Adds (AreUnseenLines node.now) (string_bytes text.old) (string_bytes text.new)) }
{
    for d in node.stored.body.delegations() {
        push_delegation(text, node.id, d, &Fate::Unreachable)?;
    }
    Ok(())
}

/// Whether a node is among these.
fn is_among(reach: &[NodeId], node: NodeId) -> bool
    ensures { result ≡ is_among reach.now node.0 }
{
    reach.iter().any(|id| *id == node)
}

/// Adds these lines for each held node that is not among the reachable ones.
pub(crate) fn push_all_unseen(
    text: &mut String,
    reach: &[NodeId],
    nodes: &[HeldNode],
) -> Result<(), AllocError>
    ensures { OnOk result (Adds (AreAllUnseenLines reach.now nodes.now) (string_bytes text.old) (string_bytes text.new)) }
{
    for node in nodes {
        if !is_among(reach, node.id) {
            push_unseen(text, node)?;
        }
    }
    Ok(())
}

/// Adds the line of a delegated prefix that is used.
fn push_used(text: &mut String, one: &Delegated) -> Result<(), AllocError>
    ensures { OnOk result (string_bytes text.new ≡ string_bytes text.old ++ used_line one.now) }
{
    let prefix = one.prefix.text();
    let valid = whole_seconds(one.valid);
    let preferred = whole_seconds(one.preferred);
    write!(text, "used {prefix} valid={valid} preferred={preferred}\n")
}

/// Adds a line for each delegated prefix that is used.
pub(crate) fn push_all_used(text: &mut String, used: &[Delegated]) -> Result<(), AllocError>
    ensures { OnOk result (string_bytes text.new ≡ string_bytes text.old ++ flat_map used_line used.now) }
{
    for one in used {
        push_used(text, one)?;
    }
    Ok(())
}
