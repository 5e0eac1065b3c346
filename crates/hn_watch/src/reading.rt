//! What a datagram shows.

ghost use Rattle.std.specs.Prelude.{◌≡◌, ◌≤◌, List, [], ◌∷◌, ◌++◌, length, take, IfOk, OnOk, IfNone, IfSome, option_to_list};
ghost use Rattle.hn_tlv.specs.Grammar.{PlainTlv, HasTlvs, IsTlvAt};
ghost use Rattle.hn_tlv.specs.View.{plain};
ghost use Rattle.hn_typed.specs.View.{plain_item};
ghost use Rattle.hn_watch.specs.Shown.{shown_by, Shows, AreShownBy, AreShownIn};

use crate::shown::Shown;
use hn_base::{NoMemory, Sequence};
use hn_tlv::{Tlv, fault_after_list, first_fault_is_unique, list_grows, next};
use hn_typed::{Item, read};
use std::alloc::Global;

// What an item shows.
fn shown_by(item: &Item<'_>) -> Option<Shown>
    ensures { result ≡ shown_by (plain_item item.now) }
{
    match item {
        Item::NodeState {
            node,
            number,
            hash,
            ..
        } => Some(Shown {
            node: *node,
            number: *number,
            hash: *hash,
        }),
        _ => None,
    }
}

// What a TLV shows.
fn shown_by_tlv(tlv: &Tlv<'_>) -> Option<Shown>
    ensures { Shows (plain tlv.now) (option_to_list result) }
{
    match read(tlv) {
        Ok(item) => shown_by(&item),
        Err(_) => None,
    }
}

// Adds what a TLV shows.
fn add_shown(shown: &mut Sequence<Shown>, tlv: &Tlv<'_>) -> Result<(), NoMemory>
    ensures { OnOk result ((tlvs : List PlainTlv) → AreShownBy tlvs shown.old → AreShownBy (tlvs ++ plain tlv.now ∷ []) shown.new) }
{
    if let Some(one) = shown_by_tlv(tlv) {
        shown.push(one)?;
    }
    Ok(())
}

// The TLV at a place in a list of TLVs, and the place after it; `None` at the end.
fn tlv_at(datagram: &[u8], place: usize) -> Option<(Tlv<'_>, usize)>
    requires list { HasTlvs datagram.now }
    requires within { place ≤ length datagram.now }
    requires before { HasTlvs (take place datagram.now) }
    ensures end { IfNone result (place ≡ length datagram.now) }
    ensures found { IfSome result (λ found. IsTlvAt datagram.now place (plain found.0) found.1) }
{
    fault_after_list();
    first_fault_is_unique();
    match next(datagram, place) {
        Ok(found) => found,
        Err(_) => unreachable!(),
    }
}

/// What a datagram shows, in its order.
pub(crate) fn shown_in(alloc: Global, datagram: &[u8]) -> Result<Sequence<Shown>, NoMemory>
    requires { HasTlvs datagram.now }
    ensures { IfOk result (AreShownIn datagram.now) }
{
    list_grows();
    let mut shown = Sequence::new(alloc);
    let mut place = 0;
    while let Some((tlv, after)) = tlv_at(datagram, place) {
        add_shown(&mut shown, &tlv)?;
        place = after;
    }
    Ok(shown)
}
