//! The delegated prefixes inside External-Connections (RFC 7788, sections 10.2 and 10.2.1).

ghost use Rattle.std.specs.Prelude.{◌≡◌, ◌∷◌, [], ◌++◌, OnOk, Contains, ◌↔◌, ◌⊎◌, List};
ghost use Rattle.std.specs.List.{filter_map};
ghost use Rattle.hn_tlv.specs.Grammar.{PlainTlv, HasTlvs};
ghost use Rattle.hn_tlv.specs.View.{plain};
ghost use Rattle.hn_typed.specs.Item.{PlainItem};
ghost use Rattle.hn_typed.specs.Table.{IsItem};
ghost use Rattle.hn_typed.specs.View.{plain_item};
ghost use Rattle.hn_data.specs.Items.{IsReading, HasItems};
ghost use Rattle.hn_data.specs.Delegations.{delegation_of, external_of, IsDelegatedIn, AreInsideInOrder};
ghost use Rattle.hn_data.specs.declared.said.Delegation.{Delegation};

use crate::kept::push_said;
use crate::laws::items_are_unique;
use crate::said::Delegation;
use crate::walk::tlv_at;
use hn_base::NoMemory;
use hn_tlv::{Tlv, list_grows};
use hn_typed::{Item, read};

// What a Delegated-Prefix says.
fn delegation_of(item: &Item<'_>) -> Option<Delegation>
    ensures { result ≡ delegation_of (plain_item item.now) }
{
    match item {
        Item::Delegated {
            valid,
            preferred,
            prefix,
            ..
        } => Some(Delegation {
            valid: *valid,
            preferred: *preferred,
            prefix: *prefix,
        }),
        _ => None,
    }
}

// Adds what a TLV says of a delegated prefix.
fn add_delegation(list: &mut Vec<Delegation>, tlv: &Tlv<'_>) -> Result<(), NoMemory>
    ensures { OnOk result ((items : List PlainItem) × IsReading (plain tlv.now ∷ []) items × (list.new.items ≡ list.old.items ++ filter_map delegation_of items)) }
{
    match read(tlv) {
        Ok(item) => push_said(list, delegation_of(&item)),
        Err(_) => Ok(()),
    }
}

// Adds the delegated prefixes of sub-TLVs.
fn add_inner(list: &mut Vec<Delegation>, subs: &[u8]) -> Result<(), NoMemory>
    requires { HasTlvs subs.now }
    ensures { OnOk result (HasItems subs.now (λ inner. list.new.items ≡ list.old.items ++ filter_map delegation_of inner)) }
{
    list_grows();
    let mut place = 0;
    while let Some((tlv, after)) = tlv_at(subs, place) {
        add_delegation(list, &tlv)?;
        place = after;
    }
    Ok(())
}

/// Adds the delegated prefixes inside an item.
pub(crate) fn add_delegations(list: &mut Vec<Delegation>, item: &Item<'_>) -> Result<(), NoMemory>
    requires { (tlv : PlainTlv) × IsItem tlv (plain_item item.now) }
    ensures exact { OnOk result ((d : Delegation) → Contains list.new.items d ↔ (Contains list.old.items d ⊎ IsDelegatedIn (plain_item item.now ∷ []) d)) }
    ensures in_order { OnOk result ((more : List Delegation) × AreInsideInOrder (filter_map external_of (plain_item item.now ∷ [])) more
        × (list.new.items ≡ list.old.items ++ more)) }
{
    items_are_unique();
    match item {
        Item::External { subs } => add_inner(list, subs),
        _ => Ok(()),
    }
}
