ghost use Rattle.hn_hash.specs.Agreement.{EqualHashesAgreeOrCollide};
ghost use Rattle.hn_hash.specs.Laws.{HashHasEightBytes};

/// A law, for all lists of leaves: where their network hashes are equal, the lists are equal, or a collision of `h`
/// is among what they hash. The call does nothing. Never allocates.
pub fn equal_hashes_agree_or_collide()
    ensures { EqualHashesAgreeOrCollide }
{}

/// A hash has eight bytes. The call does nothing. Never allocates.
pub fn hash_has_eight_bytes()
    ensures { HashHasEightBytes }
{}
