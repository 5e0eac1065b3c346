//! What is said of a router on whether its home is calm. In templates digits stand for parts.

ghost use Rattle.std.specs.Prelude.{◌≡◌, ◌++◌, ℕ, List, IsTrue, IfOk, OnOk, string_bytes};
ghost use Rattle.hn_base.specs.Name.{name_text};
ghost use Rattle.hn_audit.specs.Reached.{runs};
ghost use Rattle.hn_why.specs.Why.{IsWhy};
ghost use Rattle.hn_calm.specs.Text.{calm_said, restless_said, uncalm_begun, uncalm_said};

use crate::uncalm::Uncalm;
use hn_base::{Moment, Name, NoMemory};
use hn_why::{Part, say, why_text};
use hn_world::World;
use std::alloc::{AllocError, Global};

/// What is said of one whose home is calm before a moment.
pub(crate) fn calm_so(alloc: Global, name: &Name, end: Moment) -> Result<String, NoMemory>
    ensures { IfOk result (λ text. string_bytes text ≡ calm_said name.now end) }
{
    let mut text = String::new(alloc);
    say(
        &mut text,
        "calm 0 calm=yes until=1\n0 stays settled and quiet, with the same assignments, before 1, while its home runs without loss at steps of 22 s at most.\n",
        &[Part::Name(*name), Part::Moment(end)],
    )?;
    Ok(text)
}

/// What is said of one that is not settled or not quiet.
pub(crate) fn restless_so(alloc: Global, name: &Name, world: &World) -> Result<String, NoMemory>
    requires { IsTrue (runs (name_text name.now) world.now.parts) }
    ensures { IfOk result (λ text. (why : List ℕ) × IsWhy (name_text name.now) world.now.parts why
        × (string_bytes text ≡ restless_said name.now ++ why)) }
{
    let why = why_text(alloc, name, world)?;
    let mut text = String::new(alloc);
    say(
        &mut text,
        "calm 0 calm=no cause=restless\n",
        &[Part::Name(*name)],
    )?;
    text.push_str(why.as_str())?;
    Ok(text)
}

/// Adds what is said of a witness: its words, which are the cause and what it is about, and a sentence on it.
fn push_uncalm(text: &mut String, name: &Name, missing: &Uncalm) -> Result<(), AllocError>
    ensures { OnOk result (string_bytes text.new ≡ string_bytes text.old ++ uncalm_said name.now missing.now) }
{
    match *missing {
        Uncalm::Apart { router } => say(
            text,
            "apart router=1\n1 runs, and 0 does not reach it.\n",
            &[Part::Name(*name), Part::Name(router)],
        ),
        Uncalm::Waits { copy } => say(
            text,
            "waits copy=0\nCopy 0 waits: it was neither delivered nor dropped.\n",
            &[Part::Moment(copy)],
        ),
        Uncalm::Unlinked { at } => say(
            text,
            "unlinked router=0 ep=1 node=2 peer-ep=3\nNo running router has endpoint 3 of node 2, a peer of endpoint 1 of 0, on the link of that one.\n",
            &[
                Part::Name(at.router),
                Part::Endpoint(at.endpoint),
                Part::Node(at.node),
                Part::Endpoint(at.peer),
            ],
        ),
        Uncalm::Unheard { at, contact } => say(
            text,
            "unheard router=0 ep=1 node=2 peer-ep=3 contact=4\n0 last heard endpoint 3 of node 2 at 4, on endpoint 1, and that is too long ago.\n",
            &[
                Part::Name(at.router),
                Part::Endpoint(at.endpoint),
                Part::Node(at.node),
                Part::Endpoint(at.peer),
                Part::Moment(contact),
            ],
        ),
        Uncalm::Missed { at, contact, sent } => say(
            text,
            "missed router=0 ep=1 node=2 peer-ep=3 contact=4 sent=5\n0 last heard endpoint 3 of node 2 at 4, on endpoint 1, and that has sent since, at 5.\n",
            &[
                Part::Name(at.router),
                Part::Endpoint(at.endpoint),
                Part::Node(at.node),
                Part::Endpoint(at.peer),
                Part::Moment(contact),
                Part::Moment(sent),
            ],
        ),
        Uncalm::Ended { router } => say(
            text,
            "ended router=0\nA lifetime has ended that 0 keeps or sees, or node data are old.\n",
            &[Part::Name(router)],
        ),
    }
}

/// What is said of one that is settled and quiet, and whose home is not calm.
pub(crate) fn uncalm_so(alloc: Global, name: &Name, missing: &Uncalm) -> Result<String, NoMemory>
    ensures { IfOk result (λ text. string_bytes text ≡ uncalm_begun name.now ++ uncalm_said name.now missing.now) }
{
    let mut text = String::new(alloc);
    say(&mut text, "calm 0 calm=no cause=", &[Part::Name(*name)])?;
    push_uncalm(&mut text, name, missing)?;
    Ok(text)
}
