//! What is remembered of what was shown. A place is made for each thing first, which may need memory; to note it then
//! needs none.

ghost use Rattle.std.specs.Prelude.{◌≡◌, List, [], ◌++◌, All, OnOk, Some};
ghost use Rattle.hn_watch.specs.Seen.{keeping};

use crate::claim::{Claim, NodeNumber};
use crate::places::{Places, held, make_place, put};
use crate::shown::Shown;
use hn_base::{NoMemory, NodeId, older};
use std::alloc::Global;
use std::collections::BTreeMap;

/// Of each node and sequence number that was shown the claim, and of each node what is kept.
#[derive(Drop)]
pub(crate) struct Remembered {
    pub(crate) claims: Places<NodeNumber, Claim>,
    pub(crate) kept: Places<NodeId, Shown>,
}

// What is kept of a node after one of it is shown. Of two numbers exactly 2^31 apart each is older than the other.
fn kept_after(kept: Option<Shown>, one: &Shown) -> Shown
    ensures { Some result ≡ keeping one.now.node kept one.now }
{
    match kept {
        Some(kept) if !older(kept.number, one.number) => kept,
        _ => *one,
    }
}

impl Remembered {
    ghost use Rattle.hn_watch.specs.Remembered.{Remembers, RemembersSame, HasRoom, KeepsRoom, IsNoted};

    /// Nothing is remembered. Never allocates.
    pub(crate) fn new(alloc: Global) -> Remembered
        ensures { Remembers [] result }
    {
        Remembered {
            claims: BTreeMap::new(alloc),
            kept: BTreeMap::new(alloc),
        }
    }

    // Makes place for what is noted of one.
    fn make_place(&mut self, one: &Shown) -> Result<(), NoMemory>
        ensures same { RemembersSame self.old self.new }
        ensures room { OnOk result (HasRoom self.new one.now) }
        ensures stays { KeepsRoom self.old self.new }
    {
        make_place(&mut self.claims, NodeNumber::of(one))?;
        make_place(&mut self.kept, one.node)
    }

    /// Makes place for what is noted of these.
    pub(crate) fn make_room(&mut self, shown: &[Shown]) -> Result<(), NoMemory>
        ensures same { RemembersSame self.old self.new }
        ensures room { OnOk result (All (HasRoom self.new) shown.now) }
    {
        for one in shown {
            self.make_place(one)?;
        }
        Ok(())
    }

    // Notes one that is shown. Never allocates.
    fn note(&mut self, one: &Shown)
        requires { HasRoom self.old one.now }
        ensures noted { IsNoted one.now self.old self.new }
        ensures stays { KeepsRoom self.old self.new }
    {
        let number = NodeNumber::of(one);
        let claim = Claim::after(held(&self.claims, &number), one.hash);
        put(&mut self.claims, number, claim);
        let kept = kept_after(held(&self.kept, &one.node), one);
        put(&mut self.kept, one.node, kept);
    }

    /// Notes these in their order. Never allocates.
    pub(crate) fn note_all(&mut self, shown: &[Shown])
        requires { All (HasRoom self.old) shown.now }
        ensures { (before : List Shown) → Remembers before self.old → Remembers (before ++ shown.now) self.new }
    {
        for one in shown {
            self.note(one);
        }
    }
}
