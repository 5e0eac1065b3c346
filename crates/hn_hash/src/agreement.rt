ghost use Rattle.std.specs.Prelude.{◌≡◌, ◌≢◌, ◌↔◌, length, IsTrue, IfOk, IfSome, IfNone};
ghost use Rattle.hn_hash.specs.Network.{bodies, leaf_text, network_hash};
ghost use Rattle.hn_hash.specs.Agreement.{IsFirstDifference, IsExhibited, IfCollide};

use crate::hash::h;
use crate::leaf::Leaf;
use crate::network_state::network;
use hn_base::{Bytes, NoMemory};
use std::alloc::Global;

/// What two routers conclude from their network hashes.
#[derive(Drop)]
pub enum Agreement {
    /// The network hashes differ.
    Differ,
    /// The lists of leaves are equal.
    Same,
    /// The network hashes are equal and the leaves are not: `left`, which was hashed for the first list, and
    /// `right`, which was hashed for the second, differ and have one hash.
    Collide { left: Bytes, right: Bytes },
}

/// Whether two leaves have the same node data.
fn have_same_body(x: &Leaf, y: &Leaf) -> bool
    ensures { IsTrue result ↔ (x.now.body ≡ y.now.body) }
{
    x.body.as_slice() == y.body.as_slice()
}

/// Whether two leaves are equal.
fn is_same(x: &Leaf, y: &Leaf) -> bool
    ensures { IsTrue result ↔ (x.now ≡ y.now) }
{
    x.number == y.number && have_same_body(x, y)
}

/// Whether two lists of leaves are equal.
fn are_same(a: &[Leaf], b: &[Leaf]) -> bool
    ensures { IsTrue result ↔ (a.now ≡ b.now) }
{
    a.len() == b.len() && a.iter().zip(b).all(|(x, y)| is_same(x, y))
}

/// The first place at which the node data differ.
fn first_difference(a: &[Leaf], b: &[Leaf]) -> Option<usize>
    requires { length a.now ≡ length b.now }
    ensures found { IfSome result (IsFirstDifference a.now b.now) }
    ensures none { IfNone result (bodies a.now ≡ bodies b.now) }
{
    a.iter().zip(b).position(|(x, y)| !have_same_body(x, y))
}

/// The text whose hash is the network state hash.
fn text_of(alloc: Global, leaves: &[Leaf]) -> Result<Vec<u8>, NoMemory>
    ensures { IfOk result (λ text. text.items ≡ leaf_text leaves.now) }
{
    let mut text = Vec::new(alloc);
    for leaf in leaves {
        text.extend_from_slice(&leaf.number.to_be_bytes())?;
        text.extend_from_slice(&h(leaf.body.as_slice()))?;
    }
    Ok(text)
}

/// Compares two lists of leaves, by their network hashes and then one by one. Of a collision it gives the two texts:
/// those whose hashes are the network hashes, where these texts differ, else the first two node data in one place
/// that differ. Only a collision takes memory.
///
/// # Errors
///
/// Out of memory, and only where two inputs collide.
pub fn agree(alloc: Global, a: &[Leaf], b: &[Leaf]) -> Result<Agreement, NoMemory>
    ensures differ { (result ≡ Ok Agreement.Differ) ↔ (network_hash a.now ≢ network_hash b.now) }
    ensures same { (result ≡ Ok Agreement.Same) ↔ (a.now ≡ b.now) }
    ensures collide { IfOk result (IfCollide (IsExhibited a.now b.now)) }
{
    if network(a) != network(b) {
        return Ok(Agreement::Differ);
    }
    if are_same(a, b) {
        return Ok(Agreement::Same);
    }
    let left = text_of(alloc, a)?;
    let right = text_of(alloc, b)?;
    if left != right {
        return Ok(Agreement::Collide {
            left: Bytes::from(left),
            right: Bytes::from(right),
        });
    }
    match first_difference(a, b) {
        Some(i) => Ok(Agreement::Collide {
            left: Bytes::copy_of(alloc, a[i].body.as_slice())?,
            right: Bytes::copy_of(alloc, b[i].body.as_slice())?,
        }),
        None => unreachable!(),
    }
}
