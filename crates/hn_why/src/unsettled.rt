//! What is said of a witness by which a router is not settled.

ghost use Rattle.std.specs.Prelude.{◌≡◌, ◌∷◌, ◌++◌, OnOk, string_bytes};
ghost use Rattle.hn_base.specs.Name.{name_text};
ghost use Rattle.hn_why.specs.Unsettled.{unsettled_words, unsettled_sentence};

use crate::link::LinkName;
use crate::part::{Part, say};
use hn_audit::Unsettled;
use hn_base::Name;
use hn_world::World;
use std::alloc::AllocError;

/// Adds its words, which are the cause and what it is about, and a sentence on it; the router that is not settled has this
/// name.
pub(crate) fn push_said(
    text: &mut String,
    name: &Name,
    world: &World,
    why: &Unsettled,
) -> Result<(), AllocError>
    ensures { OnOk result (string_bytes text.new ≡ string_bytes text.old ++ (unsettled_words world.now.parts why.now ++ 10 ∷ unsettled_sentence (name_text name.now) world.now.parts why.now)) }
{
    match *why {
        Unsettled::Unknown { id } => say(
            text,
            "unknown node=1\n0 reaches node 1, and no router that runs has this identifier.\n",
            &[Part::Name(*name), Part::Node(id)],
        ),
        Unsettled::Shared { id } => say(
            text,
            "shared node=1\n0 reaches node 1, and several routers that run have this identifier.\n",
            &[Part::Name(*name), Part::Node(id)],
        ),
        Unsettled::OtherReach { router } => say(
            text,
            "other-reach router=1\n1 reaches other nodes than 0 does.\n",
            &[Part::Name(*name), Part::Name(router)],
        ),
        Unsettled::NotHeld { router, node } => say(
            text,
            "not-held router=0 node=1\n0 holds no node data of node 1.\n",
            &[Part::Name(router), Part::Node(node)],
        ),
        Unsettled::OldData {
            router,
            node,
            holds,
            current,
        } => say(
            text,
            "old-data router=0 node=1 holds=2 current=3\n0 holds node data of node 1 with number 2, and these are not its own ones with number 3.\n",
            &[
                Part::Name(router),
                Part::Node(node),
                Part::Number(holds),
                Part::Number(current),
            ],
        ),
        Unsettled::OtherPrefixes { router, other } => say(
            text,
            "other-prefixes router=0 other=1\n0 and 1 do not use and want the same delegated prefixes.\n",
            &[Part::Name(router), Part::Name(other)],
        ),
        Unsettled::Stranger {
            router,
            endpoint,
            link,
        } => say(
            text,
            "stranger router=1 ep=2 link=3\nEndpoint 2 of 1, which 0 does not reach, is on the link 3 beside one that it reaches.\n",
            &[
                Part::Name(*name),
                Part::Name(router),
                Part::Endpoint(endpoint),
                Part::Link(LinkName::at(world, link)),
            ],
        ),
        Unsettled::NotLinked {
            router,
            endpoint,
            other,
            other_endpoint,
        } => say(
            text,
            "not-linked router=0 ep=1 other=2 other-ep=3\nEndpoint 1 of 0 and endpoint 3 of 2 are on one link, and do not have each other as peers.\n",
            &[
                Part::Name(router),
                Part::Endpoint(endpoint),
                Part::Name(other),
                Part::Endpoint(other_endpoint),
            ],
        ),
        Unsettled::NotOnOneLink {
            router,
            endpoint,
            other,
            other_endpoint,
        } => say(
            text,
            "not-on-one-link router=0 ep=1 other=2 other-ep=3\nEndpoint 1 of 0 and endpoint 3 of 2 have each other as peers, and are not on one link.\n",
            &[
                Part::Name(router),
                Part::Endpoint(endpoint),
                Part::Name(other),
                Part::Endpoint(other_endpoint),
            ],
        ),
    }
}
