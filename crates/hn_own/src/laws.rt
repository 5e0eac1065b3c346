//! Laws of a router's endpoints, own delegated prefixes and node data. Each is the contract of a function that does
//! nothing: call it to know its law.

ghost use Rattle.std.specs.Prelude.{[]};
ghost use Rattle.hn_own.specs.Laws.{OwnDataIsUnique, OwnDataExists, OwnItemsAreFew, OwnItemsAreRanged, AddingKeepsOwnPrefixes, LeavingKeepsOwnPrefixes, EndingIsAMoment, NoneEnds, PostsAscend, FewPosts, HeldStays, AddressesStay, AddressesMayBe};
ghost use Rattle.hn_own.specs.Addresses.{AreAddresses};
ghost use Rattle.hn_own.specs.OwnPrefixes.{AreOwnPrefixes};
ghost use Rattle.hn_own.specs.Ports.{ArePorts};

use hn_data::ascending_set_is_unique;

/// Own items that are published at a moment encode to one node data.
pub fn own_data_is_unique()
    ensures { OwnDataIsUnique }
{
    ascending_set_is_unique();
}

/// Own items, few enough and with numbers that fit their fields, have node data at each moment. So they have exactly one.
pub fn own_data_exists()
    ensures { OwnDataExists }
{}

/// The own items of a router are few enough, and where the numbers of what they are made of fit, theirs do.
pub fn own_items_fit()
    ensures few { OwnItemsAreFew }
    ensures ranged { OwnItemsAreRanged }
{}

/// The empty list is one of a router's endpoints, one of own delegated prefixes, and one of own addresses.
pub fn none_are_well()
    ensures endpoints { ArePorts [] }
    ensures prefixes { AreOwnPrefixes [] }
    ensures addresses { AreAddresses [] }
{}

/// Own delegated prefixes stay such where one is added that may be, and where only some of them stay.
pub fn own_prefixes_stay()
    ensures added { AddingKeepsOwnPrefixes }
    ensures some { LeavingKeepsOwnPrefixes }
{}

/// The valid lifetime of some own delegated prefix has ended from one moment on.
pub fn ending_is_a_moment()
    ensures { EndingIsAMoment }
{}

/// All own delegated prefixes stay if and only if no valid lifetime has ended.
pub fn ending_leaves()
    ensures { NoneEnds }
{}

/// A router's posts are in strictly ascending order of their numbers, and at most 17.
pub fn posts_ascend()
    ensures ascending { PostsAscend }
    ensures few { FewPosts }
{}

/// What a router holds stays such without what it holds for a private link.
pub fn held_without_private()
    ensures { HeldStays }
{}

/// Own addresses stay such without those of an endpoint. A list that may be the own addresses is such, each of an attached
/// endpoint.
pub fn addresses_stay()
    ensures some { AddressesStay }
    ensures may_be { AddressesMayBe }
{}
