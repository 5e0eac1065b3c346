ghost use Rattle.std.specs.Prelude.{◌≡◌, ◌↔◌, ℕ, List, All, length, IsTrue, Err, Contains, IfOk, OnOk, IsNone, IfNone, IfSome, IsSomeAnd};
ghost use Rattle.std.specs.List.Sorted.{IsStrictlySortedBy};
ghost use Rattle.hn_tlv.specs.Grammar.{PlainTlv, HasTlvs, IsTlvAt, FirstFault};
ghost use Rattle.hn_tlv.specs.declared.list_fault.ListFault.TheVariants.{Malformed};
ghost use Rattle.hn_typed.specs.Item.{PlainItem};
ghost use Rattle.hn_data.specs.Items.{AreItems, HasItems};
ghost use Rattle.hn_data.specs.OwnData.{IsEncoded, IsWrittenIn, IsAscendingSet};
ghost use Rattle.hn_data.specs.Walk.{IsTlvPlace, IsFoundAt, Decodes};
ghost use Rattle.hn_data.specs.Kept.{IsKeptBeside};
ghost use Rattle.hn_data.specs.Peers.{HasPeer, peer_cmp};
ghost use Rattle.hn_data.specs.Delegations.{HasDelegation, HasDelegations, HasExternal};
ghost use Rattle.hn_data.specs.Said.{HasAssigned, HasAddress};
ghost use Rattle.hn_base.specs.declared.ids.EpId.{EpId};

use crate::kept::Kept;
use crate::laws::{are_bytes, items_are_unique, node_data_has_items};
use crate::own_data::ascending_set;
use crate::reading::read_kept;
use crate::said::{AssignedPrefix, Delegation, PeerLink};
use crate::walk::tlv_at;
use hn_base::{Bytes, EpId, NoMemory};
use hn_tlv::{ListFault, check, list_grows, spelling_is_prefix_free, tlv_is_unique};
use hn_typed::{Item, ItemFault, item_is_unique, read, written_is_read};
use std::alloc::Global;
use std::marker::Model;
use std::rc::Rc;

/// Node data, and what others ask of it.
#[derive(Drop)]
struct Inner {
    bytes: Bytes,
    kept: Kept,
}

/// A node's data, a list of TLVs (RFC 7787, section 7.2.3), read once when it is made; contracts see its bytes.
/// What is shared shares its memory.
#[derive(Drop)]
pub struct NodeData {
    shared: Rc<Inner, Global>,
}

impl Model for NodeData {
    ghost use Rattle.std.specs.Prelude.{ℕ, List};
    ghost use Rattle.hn_data.specs.Kept.{IsKeptBeside};

    ghost Value = { List ℕ };

    ghost view = { λ d. d.shared.value.bytes };

    ghost invariant = { λ d. IsKeptBeside d.shared.value.bytes d.shared.value.kept };
}

// Reads a list of TLVs.
fn read_data(alloc: Global, bytes: Bytes) -> Result<NodeData, NoMemory>
    requires { HasTlvs bytes }
    ensures { IfOk result (λ d. d ≡ bytes) }
{
    let kept = read_kept(alloc, bytes.as_slice())?;
    Ok(NodeData {
        shared: Rc::new(alloc, Inner { bytes, kept })?,
    })
}

impl NodeData {
    /// Reads node data, and keeps the bytes as they are.
    ///
    /// # Errors
    ///
    /// `Malformed` if and only if the bytes are no list of TLVs (RFC 7787, section 7), with the first fault, as
    /// `hn_tlv::check` gives it, which never allocates. Otherwise `NoMemory`.
    pub fn from_bytes(alloc: Global, bytes: &[u8]) -> Result<NodeData, ListFault>
        ensures data { IfOk result (λ d. d ≡ bytes.now) }
        ensures listed { OnOk result (HasTlvs bytes.now) }
        ensures refused { (place why : ℕ)
            → (result ≡ Err (Malformed (record { place = place; why = why }))) ↔ FirstFault bytes.now place why }
    {
        check(bytes)?;
        let copy = Bytes::copy_of(alloc, bytes)?;
        Ok(read_data(alloc, copy)?)
    }

    /// The items that are encoded in the pieces, in strictly ascending order of their bytes, each once.
    ///
    /// # Errors
    ///
    /// Out of memory.
    pub fn from_items(alloc: Global, items: &[Bytes]) -> Result<NodeData, NoMemory>
        requires { All IsEncoded items.now }
        ensures set { IfOk result (λ d. IsAscendingSet items.now d) }
        ensures items { IfOk result (λ d. HasItems d (λ read. (one : PlainItem) → Contains read one ↔ IsWrittenIn items.now one)) }
    {
        spelling_is_prefix_free();
        item_is_unique();
        written_is_read();
        let bytes = ascending_set(alloc, items)?;
        are_bytes(bytes.as_slice());
        read_data(alloc, bytes)
    }

    /// The bytes. Never allocates.
    pub fn bytes(&self) -> &[u8]
        ensures { result.now ≡ self.now }
    {
        self.shared.bytes.as_slice()
    }

    /// What is kept beside the bytes, which is of all their items.
    pub(crate) fn kept(&self) -> &Kept
        ensures kept { IsKeptBeside self.now result.now }
        ensures unique { (a b : List PlainItem) → AreItems self.now a → AreItems self.now b → a ≡ b }
    {
        items_are_unique();
        &self.shared.kept
    }

    /// The TLV at a place: its item, or why it has none (RFC 7787, section 7; RFC 7788, section 10), and the place
    /// after it. `None` if and only if the place is the end. A fault if and only if the TLV decodes to no item, with
    /// its first cause. Up to the place the data are a list of TLVs. Never allocates.
    pub fn item(&self, at: usize) -> Option<(Result<Item<'_>, ItemFault>, usize)>
        requires { IsTlvPlace self.now at }
        // What is answered is so.
        ensures end { IfNone result (at ≡ length self.now) }
        ensures found { IfSome result (IsFoundAt self.now at) }
        ensures place { IfSome result (λ found. IsTlvPlace self.now found.1) }

        // What is so is answered.
        ensures at_end { at ≡ length self.now → IsNone result }
        ensures at_tlv { (tlv : PlainTlv) (after : ℕ) → IsTlvAt self.now at tlv after
            → IsSomeAnd result (λ found. Decodes tlv found.0 × (found.1 ≡ after)) }
    {
        list_grows();
        tlv_is_unique();
        node_data_has_items(self);
        let (tlv, after) = tlv_at(self.bytes(), at)?;
        Some((read(&tlv), after))
    }

    /// The same data, which shares its memory.
    ///
    /// # Errors
    ///
    /// Out of memory.
    pub fn share(&self) -> Result<NodeData, NoMemory>
        ensures { IfOk result (λ shared. shared ≡ self.now) }
    {
        Ok(NodeData {
            shared: self.shared.clone()?,
        })
    }

    /// The peers that the node says it has, in ascending order, each once (RFC 7787, section 7.3.1). Never allocates.
    pub fn peers(&self) -> &[PeerLink]
        ensures ascending { IsStrictlySortedBy peer_cmp result.now }
        ensures exact { (link : PeerLink) → Contains result.now link ↔ HasPeer self.now link }
    {
        self.kept().peers.as_slice()
    }

    /// The delegated prefixes inside the node's External-Connections (RFC 7788, section 10.2.1), in the order of the
    /// data, each as often as it stands there. Never allocates.
    pub fn delegations(&self) -> &[Delegation]
        ensures exact { (d : Delegation) → Contains result.now d ↔ HasDelegation self.now d }
        ensures in_order { HasDelegations self.now result.now }
    {
        self.kept().delegations.as_slice()
    }

    /// The node's assigned prefixes (RFC 7788, section 10.3). Never allocates.
    pub fn assigned(&self) -> &[AssignedPrefix]
        ensures { (a : AssignedPrefix) → Contains result.now a ↔ HasAssigned self.now a }
    {
        self.kept().assigned.as_slice()
    }

    /// The node's addresses, each with the endpoint that it is on (RFC 7788, section 10.4). Never allocates.
    pub fn addresses(&self) -> &[(EpId, u128)]
        ensures { (a : EpId × ℕ) → Contains result.now a ↔ HasAddress self.now a }
    {
        self.kept().addresses.as_slice()
    }

    /// Whether the node has an External-Connection (RFC 7788, section 10.2). Never allocates.
    pub fn has_external(&self) -> bool
        ensures { IsTrue result ↔ HasExternal self.now }
    {
        self.kept().external
    }
}
