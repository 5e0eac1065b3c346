//! The lines of the router itself, of its peers and of the nodes that it holds.

ghost use Rattle.std.specs.Prelude.{◌≡◌, ◌++◌, OnOk, string_bytes};
ghost use Rattle.std.specs.List.{flat_map};
ghost use Rattle.hn_base.specs.Name.{name_text};
ghost use Rattle.hn_table.specs.Lines.{table_line, peer_line, peers_lines, held_line};

use hn_base::{EpId, Hex, Moment, Name, yes_no};
use hn_dncp::{Neighbour, Port};
use hn_prefix::address_text;
use hn_store::HeldNode;
use hn_world::Member;
use std::alloc::AllocError;
use std::fmt;

/// Adds the line of the router itself.
pub(crate) fn push_router(text: &mut String, name: &Name, member: &Member) -> Result<(), AllocError>
    ensures { OnOk result (string_bytes text.new ≡ string_bytes text.old ++ table_line (name_text name.now) member.now) }
{
    let id = member.router.id();
    let number = member.router.number();
    let net = member.router.net();
    let hash = Hex(&net);
    let moment = member.router.moment();
    let running = yes_no(member.running);
    write!(
        text,
        "table {name} node={id} number={number} hash={hash} moment={moment} running={running}\n"
    )
}

/// Adds the line of a peer of an endpoint.
fn push_peer(text: &mut String, endpoint: EpId, peer: &Neighbour) -> Result<(), AllocError>
    ensures { OnOk result (string_bytes text.new ≡ string_bytes text.old ++ peer_line endpoint peer.now) }
{
    let e = endpoint.0;
    let node = peer.node;
    let f = peer.endpoint.0;
    let contact = peer.contact;
    let address = address_text(peer.addr.ip);
    write!(
        text,
        "peer ep={e} node={node} of={f} contact={contact} at={address}\n"
    )
}

/// Adds a line for each peer of an endpoint.
fn push_peers(text: &mut String, port: &Port) -> Result<(), AllocError>
    ensures { OnOk result (string_bytes text.new ≡ string_bytes text.old ++ peers_lines port.now) }
{
    for peer in port.peers.as_slice() {
        push_peer(text, port.id, peer)?;
    }
    Ok(())
}

/// Adds a line for each peer of each endpoint.
pub(crate) fn push_ports(text: &mut String, ports: &[Port]) -> Result<(), AllocError>
    ensures { OnOk result (string_bytes text.new ≡ string_bytes text.old ++ flat_map peers_lines ports.now) }
{
    for port in ports {
        push_peers(text, port)?;
    }
    Ok(())
}

/// Since when a node is not reachable; `None` while it is.
#[derive(Clone, Copy)]
struct Lost(Option<Moment>);

/// Whether the node is reachable, and if it is not, since when.
impl fmt::Display for Lost {
    ghost use Rattle.std.specs.Prelude.{Some};
    ghost use Rattle.hn_table.specs.Lines.{lost_words};

    ghost output = { λ lost. Some (lost_words lost.0) };

    fn fmt<W: fmt::Write>(&self, f: &mut fmt::Formatter<W>) -> fmt::Result {
        match self.0 {
            Some(moment) => write!(f, "reachable=no lost={moment}"),
            None => f.write_str("reachable=yes"),
        }
    }
}

/// Adds the line of a node that is held.
fn push_node(text: &mut String, node: &HeldNode) -> Result<(), AllocError>
    ensures { OnOk result (string_bytes text.new ≡ string_bytes text.old ++ held_line node.now) }
{
    let id = node.id;
    let number = node.stored.number;
    let hash = Hex(&node.stored.hash);
    let age = node.stored.age;
    let at = node.stored.at;
    let lost = Lost(node.stored.lost);
    write!(
        text,
        "node {id} number={number} hash={hash} age={age} since={at} {lost}\n"
    )
}

/// Adds a line for each node that is held.
pub(crate) fn push_nodes(text: &mut String, nodes: &[HeldNode]) -> Result<(), AllocError>
    ensures { OnOk result (string_bytes text.new ≡ string_bytes text.old ++ flat_map held_line nodes.now) }
{
    for node in nodes {
        push_node(text, node)?;
    }
    Ok(())
}
