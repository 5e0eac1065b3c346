//! Laws of the rule. Each is the contract of a function that does nothing: call it to know its law.

ghost use Rattle.hn_addr.specs.Choosings.{ChoosingIsUnique};
ghost use Rattle.hn_addr.specs.Laws.{NumberIsInside, ChoiceIsUnique, ChoiceExists, ChosenAddressesFit, StillAddressesStay};

/// A number is below the size of a prefix if and only if the address that it makes is inside the prefix.
pub fn number_is_inside()
    ensures { NumberIsInside }
{}

/// Over one stream of words the choosing has one result.
pub(crate) fn choosing_is_unique()
    ensures { ChoosingIsUnique }
{}

/// Over one stream of words a router chooses one thing, and takes the same words for it.
pub fn choice_is_unique()
    ensures { ChoiceIsUnique }
{}

/// Over each stream of words a router has a choice: it cannot be that there is none. With `choice_is_unique` there is exactly
/// one.
pub fn choice_exists()
    ensures { ChoiceExists }
{}

/// The addresses that a router sets have 128 bits, and their endpoints 32.
pub fn chosen_addresses_fit()
    ensures { ChosenAddressesFit }
{}

/// Where a router is still, no node with a greater identifier has an own address of it, and no two of its own addresses
/// are the same.
pub fn still_addresses_stay()
    ensures { StillAddressesStay }
{}
