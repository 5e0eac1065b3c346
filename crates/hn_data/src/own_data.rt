//! Node data made of items (RFC 7787, section 7.2.3).

ghost use Rattle.std.specs.Prelude.{◌≡◌, ◌↔◌, ℕ, List, map, Contains, IfOk};
ghost use Rattle.std.specs.Ordering.{nat_cmp};
ghost use Rattle.std.specs.Cmp.Lexicographic.{slice_cmp};
ghost use Rattle.std.specs.List.{concat};
ghost use Rattle.std.specs.List.Sorted.{IsStrictlySortedBy};
ghost use Rattle.hn_data.specs.OwnData.{IsAscendingSet};

use hn_base::{Bytes, NoMemory};
use std::alloc::Global;

// The pieces in ascending order of their bytes, each once.
fn in_order<'a>(alloc: Global, pieces: &'a [Bytes]) -> Result<Vec<&'a [u8]>, NoMemory>
    ensures ascending { IfOk result (λ sorted. IsStrictlySortedBy (slice_cmp nat_cmp) (map (λ piece. piece.now) sorted.items)) }
    ensures same { IfOk result (λ sorted. (piece : List ℕ) → Contains (map (λ p. p.now) sorted.items) piece ↔ Contains pieces.now piece) }
{
    let mut sorted = Vec::with_capacity(alloc, pieces.len())?;
    for piece in pieces {
        sorted.push(piece.as_slice())?;
    }
    sorted.sort_unstable();
    sorted.dedup();
    Ok(sorted)
}

// The pieces one after the other.
fn joined(alloc: Global, pieces: &[&[u8]]) -> Result<Vec<u8>, NoMemory>
    ensures { IfOk result (λ bytes. bytes.items ≡ concat (map (λ piece. piece.now) pieces.now)) }
{
    let mut bytes = Vec::new(alloc);
    for piece in pieces {
        bytes.extend_from_slice(piece)?;
    }
    Ok(bytes)
}

/// The bytes of the pieces, each once, in ascending order.
pub(crate) fn ascending_set(alloc: Global, pieces: &[Bytes]) -> Result<Bytes, NoMemory>
    ensures { IfOk result (λ bytes. IsAscendingSet pieces.now bytes) }
{
    let sorted = in_order(alloc, pieces)?;
    Ok(Bytes::from(joined(alloc, sorted.as_slice())?))
}
