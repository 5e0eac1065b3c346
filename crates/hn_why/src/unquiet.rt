//! What is said of a witness by which a router is not quiet.

ghost use Rattle.std.specs.Prelude.{◌≡◌, ◌∷◌, ◌++◌, OnOk, string_bytes};
ghost use Rattle.hn_why.specs.Unquiet.{unquiet_words, unquiet_sentence};

use crate::part::{Part, say};
use hn_audit::Unquiet;
use std::alloc::AllocError;

/// Adds its words, which are what the router would do and at which pair, and a sentence on it.
pub(crate) fn push_said(text: &mut String, why: &Unquiet) -> Result<(), AllocError>
    ensures { OnOk result (string_bytes text.new ≡ string_bytes text.old ++ (unquiet_words why.now ++ 10 ∷ unquiet_sentence why.now)) }
{
    match *why {
        Unquiet::Unasked {
            router,
            endpoint,
            delegated,
            prefix,
        } => say(
            text,
            "unasked router=0 ep=1 in=2 is=3\n0 would give up 3 at endpoint 1: it asks for no prefix in 2 there.\n",
            &[
                Part::Name(router),
                Part::Endpoint(endpoint),
                Part::Prefix(delegated),
                Part::Prefix(prefix),
            ],
        ),
        Unquiet::Makes {
            router,
            endpoint,
            delegated,
        } => say(
            text,
            "makes router=0 ep=1 in=2\n0 would assign a prefix in 2 to endpoint 1.\n",
            &[
                Part::Name(router),
                Part::Endpoint(endpoint),
                Part::Prefix(delegated),
            ],
        ),
        Unquiet::Takes {
            router,
            endpoint,
            delegated,
            best,
        } => say(
            text,
            "takes router=0 ep=1 in=2 best=3\n0 would take 3 in 2 at endpoint 1, as another node has it there.\n",
            &[
                Part::Name(router),
                Part::Endpoint(endpoint),
                Part::Prefix(delegated),
                Part::Prefix(best),
            ],
        ),
        Unquiet::Drops {
            router,
            endpoint,
            delegated,
            prefix,
        } => say(
            text,
            "drops router=0 ep=1 in=2 is=3\n0 would give up or publish 3 in 2 at endpoint 1.\n",
            &[
                Part::Name(router),
                Part::Endpoint(endpoint),
                Part::Prefix(delegated),
                Part::Prefix(prefix),
            ],
        ),
        Unquiet::Changes {
            router,
            endpoint,
            delegated,
            prefix,
            best,
        } => say(
            text,
            "changes router=0 ep=1 in=2 is=3 best=4\n0 would not leave 3 in 2 at endpoint 1 as it is beside 4 of another node.\n",
            &[
                Part::Name(router),
                Part::Endpoint(endpoint),
                Part::Prefix(delegated),
                Part::Prefix(prefix),
                Part::Prefix(best),
            ],
        ),
    }
}
