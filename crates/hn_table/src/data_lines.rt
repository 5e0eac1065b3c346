//! The data of the nodes that a router knows.

ghost use Rattle.std.specs.Prelude.{IfOk, OnOk, string_bytes};
ghost use Rattle.hn_decode.specs.Nested.{IsDecodeText};
ghost use Rattle.hn_table.specs.Data.{IsDataText, AreHeldTexts};
ghost use Rattle.hn_table.specs.InOrder.{Adds};

use hn_base::{NoMemory, NodeId};
use hn_data::{NodeData, node_data_has_items};
use hn_decode::decode;
use hn_store::HeldNode;
use hn_tlv::{ListFault, first_fault_is_unique};
use std::alloc::Global;

/// The text of the TLVs of node data, which are always a list of TLVs.
fn decoded(alloc: Global, body: &NodeData) -> Result<String, NoMemory>
    ensures { IfOk result (λ text. IsDecodeText body.now (string_bytes text)) }
{
    node_data_has_items(body);
    first_fault_is_unique();
    match decode(alloc, body.bytes()) {
        Ok(text) => return Ok(text),
        Err(ListFault::NoMemory) => return Err(NoMemory),
        Err(ListFault::Malformed(_)) => unreachable!(),
    }
}

/// Adds the data of a node.
pub(crate) fn push_data(
    alloc: Global,
    text: &mut String,
    node: NodeId,
    body: &NodeData,
) -> Result<(), NoMemory>
    ensures { OnOk result (Adds (IsDataText node body.now) (string_bytes text.old) (string_bytes text.new)) }
{
    let tlvs = decoded(alloc, body)?;
    write!(text, "data {node}\n{tlvs}")?;
    Ok(())
}

/// Adds the data of each node that is held.
pub(crate) fn push_all_data(
    alloc: Global,
    text: &mut String,
    nodes: &[HeldNode],
) -> Result<(), NoMemory>
    ensures { OnOk result (Adds (AreHeldTexts nodes.now) (string_bytes text.old) (string_bytes text.new)) }
{
    for node in nodes {
        push_data(alloc, text, node.id, &node.stored.body)?;
    }
    Ok(())
}
