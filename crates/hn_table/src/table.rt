//! What a router holds.

ghost use Rattle.std.specs.Prelude.{◌≡◌, ◌++◌, IfOk, OnOk, string_bytes};
ghost use Rattle.hn_base.specs.Name.{name_text};
ghost use Rattle.hn_data.specs.View.{plain_view};
ghost use Rattle.hn_deleg.specs.Used.{AreUsable};
ghost use Rattle.hn_rules.specs.Seen.{seen_by};
ghost use Rattle.hn_table.specs.InOrder.{Adds};
ghost use Rattle.hn_table.specs.Table.{held_lines, IsTableText, AreDelegatedLines, AreDataTexts};

use crate::assignment_lines::{push_assignments, push_backoffs};
use crate::data_lines::{push_all_data, push_data};
use crate::delegated_lines::{push_all_seen, push_all_unseen, push_all_used};
use crate::router_lines::{push_nodes, push_ports, push_router};
use hn_base::{Name, NoMemory};
use hn_data::View;
use hn_deleg::Delegated;
use hn_router::Router;
use hn_world::Member;
use std::alloc::{AllocError, Global};

/// Adds the router itself, its peers, the nodes that it holds, its assignments and its backoffs.
fn push_held(text: &mut String, name: &Name, member: &Member) -> Result<(), AllocError>
    ensures { OnOk result (string_bytes text.new ≡ string_bytes text.old ++ held_lines (name_text name.now) member.now) }
{
    let router = &member.router;
    push_router(text, name, member)?;
    push_ports(text, router.ports())?;
    push_nodes(text, router.table().entries())?;
    push_assignments(text, router.held().assigned.as_slice())?;
    push_backoffs(text, router.held().backoffs.as_slice())
}

/// Adds the delegated prefixes that the router knows of, and those that it uses.
fn push_delegated(
    text: &mut String,
    router: &Router,
    view: &View<'_>,
    used: &[Delegated],
) -> Result<(), AllocError>
    requires view { plain_view view.now ≡ seen_by router.now }
    requires usable { AreUsable (plain_view view.now) used.now }
    ensures { OnOk result (Adds (AreDelegatedLines router.now) (string_bytes text.old) (string_bytes text.new)) }
{
    push_all_seen(text, view, used)?;
    push_all_unseen(text, router.reach(), router.table().entries())?;
    push_all_used(text, used)
}

/// Adds the data of the router's own node and of those that it holds.
fn push_all_nodes_data(alloc: Global, text: &mut String, router: &Router) -> Result<(), NoMemory>
    ensures { OnOk result (Adds (AreDataTexts router.now) (string_bytes text.old) (string_bytes text.new)) }
{
    push_data(alloc, text, router.id(), router.body())?;
    push_all_data(alloc, text, router.table().entries())
}

/// What a router holds, at its moment: a line for itself, its peers, the nodes that it holds, its assignments and its
/// backoffs; one for each delegated prefix that it knows of, with what becomes of it, and one for each that it uses; and the
/// data of its own node and of those that it holds, as `hncp decode` writes them.
///
/// # Errors
///
/// Out of memory.
pub fn table_text(alloc: Global, name: &Name, member: &Member) -> Result<String, NoMemory>
    ensures { IfOk result (λ text. IsTableText (name_text name.now) member.now (string_bytes text)) }
{
    let router = &member.router;
    let nodes = router.nodes(alloc)?;
    let used = router.used(alloc)?;
    let view = View {
        own: router.id(),
        now: router.moment(),
        nodes: nodes.as_slice(),
    };
    let mut text = String::new(alloc);
    push_held(&mut text, name, member)?;
    push_delegated(&mut text, router, &view, used.as_slice())?;
    push_all_nodes_data(alloc, &mut text, router)?;
    Ok(text)
}
