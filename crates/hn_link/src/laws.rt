//! Laws of Common Links and elections. Each is the contract of a function that does nothing: call it to know its law.

ghost use Rattle.hn_link.specs.Election.{HasOneAnswer};
ghost use Rattle.hn_link.specs.Laws.{CommonLinkExists, CommonLinkIsUnique, CommonLinkOfLater, ElectedIsUnique};

use hn_data::{items_are_unique, items_or_none};

/// An endpoint has one Common Link.
pub fn common_link_is_unique()
    ensures { CommonLinkIsUnique }
{}

/// Each own endpoint of a network has a Common Link.
pub fn common_link_exists()
    ensures { CommonLinkExists }
{
    items_or_none();
    items_are_unique();
}

/// The Common Link of an endpoint stays the same while time passes.
pub fn common_link_of_later()
    ensures { CommonLinkOfLater }
{}

/// Over one view, Common Link and capability at most one node is elected, and there is one answer: who is elected, or
/// that nobody stands for election.
pub fn elected_is_unique()
    ensures one { ElectedIsUnique }
    ensures answer { HasOneAnswer }
{}
