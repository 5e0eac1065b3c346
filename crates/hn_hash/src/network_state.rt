ghost use Rattle.std.specs.Prelude.{◌≡◌, List};
ghost use Rattle.hn_hash.specs.declared.leaf.Leaf.{Leaf};
ghost use Rattle.hn_hash.specs.Hash.{hash_of};
ghost use Rattle.hn_hash.specs.Network.{network_hash, part_entry, part_text, ArePartsOf, AreNumbered};

use crate::hash::{front_of, h};
use crate::leaf::Leaf;
use crate::part::Part;
use md5::{Digest, Md5};

/// What a sequence number and the hash of node data add to the hashed text.
fn entry(number: u32, hash: &[u8; 8]) -> [u8; 12]
    ensures { result ≡ part_entry (record { number = number; hash = hash.now }) }
{
    let mut bytes = [0; 12];
    bytes[..4].copy_from_slice(&number.to_be_bytes());
    bytes[4..].copy_from_slice(hash);
    bytes
}

/// The network state hash: the hash of the sequence numbers and node data hashes of the leaves in this order (RFC
/// 7787, section 4.1, where they are in the order of their node identifiers). Never allocates.
pub fn network(leaves: &[Leaf]) -> [u8; 8]
    ensures hash { result ≡ network_hash leaves.now }

    // What a sequence number's type keeps, as the law of equal hashes asks.
    ensures numbered { AreNumbered leaves.now }
{
    let mut hasher = Md5::new();
    for leaf in leaves {
        hasher.update(&leaf.number.to_be_bytes());
        hasher.update(&h(leaf.body.as_slice()));
    }
    front_of(&hasher.finalize())
}

/// The network state hash of leaves of which the hashes of the node data are kept: that of `network`, with no node
/// data hashed again. Never allocates.
pub fn network_of(parts: &[Part]) -> [u8; 8]
    ensures hash { result ≡ hash_of (part_text parts.now) }
    ensures leaves { (leaves : List Leaf) → ArePartsOf parts.now leaves → result ≡ network_hash leaves }

    // What a sequence number's type keeps, as the law of equal hashes asks.
    ensures numbered { (leaves : List Leaf) → ArePartsOf parts.now leaves → AreNumbered leaves }
{
    let mut hasher = Md5::new();
    for part in parts {
        hasher.update(&entry(part.number, &part.hash));
    }
    front_of(&hasher.finalize())
}
