//! Laws of the grammar of TLVs (RFC 7787, section 7).
//!
//! Each is the contract of a function that does nothing: call it to know its law.

ghost use Rattle.hn_tlv.specs.Laws.{SpellingIsPrefixFree, ListIsUnique, ListIsOfBytes, ListsJoin, ListGrows, ListContinues, ListSplits, TlvIsUnique, SpellingIsAList, SpellingIsAtItsPlace, FaultExcludesTlv, FaultIsUnique, FaultAfterList, ListHasNoFirstFault, FirstFaultIsUnique, ListOrFirstFault};

/// No spelling of a TLV is a proper prefix of another's.
pub fn spelling_is_prefix_free()
    ensures { SpellingIsPrefixFree }
{}

/// A text decodes to at most one list of TLVs.
pub fn list_is_unique()
    ensures { ListIsUnique }
{}

/// A text that decodes to a list of TLVs consists of bytes.
pub fn list_is_of_bytes()
    ensures { ListIsOfBytes }
{}

/// The bytes of two lists, one after the other, are those of the two lists joined.
pub fn lists_join()
    ensures { ListsJoin }
{}

/// A list of TLVs up to a place, and the TLV there, are a list up to the place after it.
pub fn list_grows()
    ensures { ListGrows }
{}

/// A list of TLVs from a place on is the TLV there, and a list from the place after it.
pub fn list_continues()
    ensures joins { ListContinues }
    ensures splits { ListSplits }
{}

/// At a place stands at most one TLV.
pub fn tlv_is_unique()
    ensures { TlvIsUnique }
{}

/// A TLV that was written is read again: alone, and whatever stands before it and after it.
pub fn spelling_is_read()
    ensures as_a_list { SpellingIsAList }
    ensures at_its_place { SpellingIsAtItsPlace }
{}

/// Where a fault lies no TLV begins, and there is one fault only.
pub fn fault_is_unique()
    ensures no_tlv { FaultExcludesTlv }
    ensures one { FaultIsUnique }
{}

/// A fault after a list of TLVs is the first one.
pub fn fault_after_list()
    ensures { FaultAfterList }
{}

/// A text with a first fault has one only, and decodes to no list of TLVs.
pub fn first_fault_is_unique()
    ensures no_list { ListHasNoFirstFault }
    ensures one { FirstFaultIsUnique }
{}

/// Bytes are a list of TLVs, or they have a first fault.
pub fn list_or_first_fault()
    ensures { ListOrFirstFault }
{}
