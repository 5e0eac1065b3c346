//! What holds of prefixes, and of the texts of addresses and prefixes, whichever they are. The functions do nothing: their contracts
//! are the laws.

ghost use Rattle.std.specs.Prelude.{◌≡◌, ℕ, ◌^◌, ◌<◌, List, length};
ghost use Rattle.std.specs.List.{AllByRecursion};
ghost use Rattle.hn_prefix.specs.AddressText.{groups, address_of_groups, address_text_of, IsAddressText, IsWrittenForm};
ghost use Rattle.hn_prefix.specs.Laws.{PrefixTextIsRead, PrefixTextIsOfOne, FreeOrFull, InsideAreSubPrefixes, PlaceIsFirst};

/// Eight groups of 16 bits and an address of 128 bits are one value.
pub fn groups_are_the_address()
    ensures address { (ip : ℕ) → ip < 2 ^ 128 → address_of_groups (groups ip) ≡ ip }
    ensures groups { (gs : List ℕ) → length gs ≡ 8 → AllByRecursion (λ g. g < 2 ^ 16) gs
        → groups (address_of_groups gs) ≡ gs }
{}

/// An address has a written form (RFC 5952, section 4), and no other one.
pub fn written_form_is_one()
    ensures written { (ip : ℕ) → IsWrittenForm (address_text_of ip) (groups ip) }
    ensures one { (gs one other : List ℕ) → IsWrittenForm one gs → IsWrittenForm other gs → one ≡ other }
{}

/// The written form is among the read forms.
pub fn written_form_is_read()
    ensures address { (ip : ℕ) → ip < 2 ^ 128 → IsAddressText (address_text_of ip) ip }
    ensures prefix { PrefixTextIsRead }
{}

/// A text is a read form of one address, and of one prefix, at most.
pub fn read_form_is_of_one()
    ensures address { (text : List ℕ) (one other : ℕ) → IsAddressText text one → IsAddressText text other → one ≡ other }
    ensures prefix { PrefixTextIsOfOne }
{}

/// Of the prefixes of a length inside another there is a first free one, in cyclic order from whatever start, or each is
/// taken: it cannot be that there is neither.
pub fn free_or_full()
    ensures { FreeOrFull }
{}

/// The prefixes of a length inside another are its sub-prefixes, one at each place below their number.
pub fn inside_are_sub_prefixes()
    ensures { InsideAreSubPrefixes }
{}

/// The first free prefix from the place of a free one is that one.
pub fn place_is_first()
    ensures { PlaceIsFirst }
{}
