//! The line of one TLV.

ghost use Rattle.std.specs.Prelude.{◌≡◌, ◌*◌, ◌≤◌, ◌++◌, replicate, codes, IfOk, OnOk, IfSome, IfNone, string_bytes};
ghost use Rattle.hn_tlv.specs.Grammar.{PlainTlv};
ghost use Rattle.hn_tlv.specs.View.{plain};
ghost use Rattle.hn_typed.specs.Item.{PlainItem};
ghost use Rattle.hn_typed.specs.Table.{IsItem};
ghost use Rattle.hn_typed.specs.View.{plain_item};
ghost use Rattle.hn_decode.specs.Line.{within, within_name, named_bytes, deepest, line_start, HasLines, IsLineAbove, IsLineAlone};
ghost use Rattle.hn_decode.specs.ItemText.{item_text};
ghost use Rattle.hn_decode.specs.Nested.{GrowsByText};

use crate::item_text::{push_bad, push_item};
use hn_base::Hex;
use hn_tlv::{Tlv, check};
use hn_typed::{Item, after_fields, read};
use std::alloc::AllocError;

/// The last level whose TLVs have lines of their own.
pub(crate) const DEEPEST: u8 = 7;

// What lies within an item: its sub-TLVs, or a node state's body.
fn within<'a>(item: &Item<'a>) -> &'a [u8]
    ensures { result.now ≡ within (plain_item item.now) }
{
    match item {
        Item::Version { .. } | Item::Other { .. } => &[],
        _ => after_fields(item),
    }
}

// The name of what lies within an item.
fn within_name(item: &Item<'_>) -> &'static str
    ensures { result.now ≡ within_name (plain_item item.now) }
{
    match item {
        Item::NodeState { .. } => "body",
        _ => "subs",
    }
}

// Adds two spaces for each level.
fn push_indent(out: &mut String, level: u8) -> Result<(), AllocError>
    requires { level ≤ deepest }
    ensures { OnOk result (string_bytes out.new ≡ string_bytes out.old ++ replicate (2 * level) 32) }
{
    for _ in 0..2 * level {
        out.push(' ')?;
    }
    Ok(())
}

// Adds the beginning of a TLV's line.
fn push_line_start(
    out: &mut String,
    tlv: &Tlv<'_>,
    place: usize,
    level: u8,
) -> Result<(), AllocError>
    requires { level ≤ deepest }
    ensures { OnOk result (string_bytes out.new ≡ string_bytes out.old ++ line_start level place (plain tlv.now)) }
{
    push_indent(out, level)?;
    let kind = tlv.kind;
    let len = tlv.value.len();
    write!(out, "{place} {kind} {len} ")
}

// Adds bytes under a name, and nothing for no bytes.
fn push_named_bytes(out: &mut String, name: &str, bytes: &[u8]) -> Result<(), AllocError>
    ensures { OnOk result (string_bytes out.new ≡ string_bytes out.old ++ named_bytes name.now bytes.now) }
{
    if bytes.is_empty() {
        return Ok(());
    }
    let digits = Hex(bytes);
    write!(out, " {name}={digits}")
}

// What lies within an item, if it has lines of its own. Sub-TLVs are a list of TLVs, since reading the item has checked
// them; a node state's body may be none.
fn shown_below<'a>(item: &Item<'a>, below: u8) -> Option<&'a [u8]>
    requires { (tlv : PlainTlv) × IsItem tlv (plain_item item.now) }
    ensures none { IfNone result (¬ HasLines below (plain_item item.now)) }
    ensures some { IfSome result (λ inner. HasLines below (plain_item item.now) × (inner.now ≡ within (plain_item item.now))) }
{
    if below == 0 {
        return None;
    }
    match *item {
        Item::NodeState { body, .. } => {
            if check(body).is_ok() {
                Some(body)
            } else {
                None
            }
        }
        _ => Some(within(item)),
    }
}

// Adds what a line says of an item, and the end of the line. What lies within is answered if it has lines of its own;
// otherwise it stands at the end of the line.
fn push_item_line<'a>(
    out: &mut String,
    item: &Item<'a>,
    below: u8,
) -> Result<Option<&'a [u8]>, AllocError>
    requires { (tlv : PlainTlv) × IsItem tlv (plain_item item.now) }
    ensures alone { IfOk result (λ inner. IfNone inner (¬ HasLines below (plain_item item.now)
        × (let item = plain_item item.now in string_bytes out.new ≡ string_bytes out.old
        ++ (item_text item ++ named_bytes (within_name item) (within item) ++ codes "\n")))) }
    ensures above { IfOk result (λ inner. IfSome inner (λ bytes. HasLines below (plain_item item.now)
        × (bytes.now ≡ within (plain_item item.now))
        × (string_bytes out.new ≡ string_bytes out.old ++ (item_text (plain_item item.now) ++ codes "\n")))) }
{
    push_item(out, item)?;
    let Some(inner) = shown_below(item, below) else {
        push_named_bytes(out, within_name(item), within(item))?;
        out.push_str("\n")?;
        return Ok(None);
    };
    out.push_str("\n")?;
    Ok(Some(inner))
}

/// Adds the line of a TLV with so many levels below its own. What lies within it is answered if it has lines below.
pub(crate) fn push_line<'a>(
    out: &mut String,
    tlv: &Tlv<'a>,
    place: usize,
    below: u8,
) -> Result<Option<&'a [u8]>, AllocError>
    requires { below ≤ deepest }
    ensures alone { IfOk result (λ inner. IfNone inner
        (GrowsByText (IsLineAlone below place (plain tlv.now)) (string_bytes out.old) (string_bytes out.new))) }
    ensures above { IfOk result (λ inner. IfSome inner (λ bytes. (item : PlainItem) × (bytes.now ≡ within item)
        × GrowsByText (IsLineAbove below place (plain tlv.now) item) (string_bytes out.old) (string_bytes out.new))) }
{
    push_line_start(out, tlv, place, DEEPEST - below)?;
    match read(tlv) {
        Ok(item) => push_item_line(out, &item, below),
        Err(fault) => {
            push_bad(out, fault.why, tlv.value)?;
            out.push_str("\n")?;
            Ok(None)
        }
    }
}
