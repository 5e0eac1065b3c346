ghost use Rattle.std.specs.Prelude.{◌≡◌, ◌↔◌, ℕ, ◌<◌, [], IsTrue, slice_index_or, take};
ghost use Rattle.std.specs.Str.{bytes_eq};
ghost use Rattle.hn_hash.specs.Hash.{hash_of};

use md5::{Digest, Md5};

/// The length of a hash in bytes (RFC 7788, section 3).
const HASH_LENGTH: usize = 8;

/// The first 8 bytes of an MD5 digest.
pub(crate) fn front_of(digest: &[u8; 16]) -> [u8; 8]
    ensures { result ≡ take 8 digest.now }
{
    let mut front = [0; HASH_LENGTH];
    front.copy_from_slice(&digest[..HASH_LENGTH]);
    front
}

/// The hash of no bytes, as RFC 1321 has it among its tests (appendix A.5).
fn hash_of_nothing() -> [u8; 8]
    ensures { result ≡ hash_of [] }
{
    [0xd4, 0x1d, 0x8c, 0xd9, 0x8f, 0x00, 0xb2, 0x04]
}

/// The first 8 bytes of the MD5 of the input (RFC 7788, section 3). That of no bytes is known beforehand. Never allocates.
pub fn h(bytes: &[u8]) -> [u8; 8]
    ensures { result ≡ hash_of bytes.now }
{
    if bytes.is_empty() {
        return hash_of_nothing();
    }
    front_of(&Md5::digest(bytes))
}

/// A hash has bytes. Does nothing: call it to know its law.
fn are_bytes(hash: &[u8])
    ensures { (place : ℕ) → slice_index_or hash.now place 0 < 256 }
{}

/// Whether two hashes are the same. They are compared as numbers. Never allocates.
pub fn same_hash(a: [u8; 8], b: [u8; 8]) -> bool
    ensures value { result ≡ bytes_eq a b }
    ensures same { IsTrue result ↔ (a ≡ b) }
{
    are_bytes(&a);
    are_bytes(&b);
    u64::from_be_bytes(a) == u64::from_be_bytes(b)
}
