//! What nodes announce that is live.

ghost use Rattle.std.specs.Prelude.{◌≡◌, ◌↔◌, ◌⊎◌, ◌++◌, Contains, OnOk, IfOk, IfSome};
ghost use Rattle.std.specs.List.{filter_map};
ghost use Rattle.hn_base.specs.Prefix.{IsPrefix};
ghost use Rattle.hn_deleg.specs.Live.{remaining};
ghost use Rattle.hn_deleg.specs.Steps.{live_of, HasPrefixes, IsLiveAt, IsLiveIn};
ghost use Rattle.hn_deleg.specs.declared.delegated.Delegated.{Delegated};

use crate::delegated::Delegated;
use hn_base::NoMemory;
use hn_data::{Delegation, Entry, version};
use std::alloc::Global;

/// What remains of a lifetime in seconds, in milliseconds.
pub(crate) fn remaining(age: u64, seconds: u32) -> u64
    ensures { result ≡ remaining age seconds }
{
    if seconds == u32::MAX {
        u64::MAX
    } else {
        (1000 * u64::from(seconds)).saturating_sub(age)
    }
}

/// What remains of a delegation, if it is live and of at most 64 bits.
fn live(age: u64, d: &Delegation) -> Option<Delegated>
    ensures value { result ≡ live_of age d.now }
    ensures valid { IfSome result (λ u. IsPrefix u.prefix) }
{
    let valid = remaining(age, d.valid);
    if d.prefix.len() <= 64 && valid > 0 {
        Some(Delegated {
            prefix: d.prefix,
            valid,
            preferred: remaining(age, d.preferred),
        })
    } else {
        None
    }
}

/// Adds what remains of delegations.
fn add_live(list: &mut Vec<Delegated>, age: u64, delegations: &[Delegation]) -> Result<(), NoMemory>
    ensures added { OnOk result (list.new.items ≡ list.old.items ++ filter_map (live_of age) delegations.now) }
    ensures valid { OnOk result (HasPrefixes list.old.items → HasPrefixes list.new.items) }
{
    for d in delegations {
        if let Some(live) = live(age, d) {
            list.push(live)?;
        }
    }
    Ok(())
}

/// Adds what remains of the delegations of a node, if it has an HNCP-Version.
fn add_node(list: &mut Vec<Delegated>, node: &Entry) -> Result<(), NoMemory>
    ensures added { OnOk result ((u : Delegated) → Contains list.new.items u ↔ (Contains list.old.items u ⊎ IsLiveAt node.now u)) }
    ensures valid { OnOk result (HasPrefixes list.old.items → HasPrefixes list.new.items) }
{
    if version(&node.body).is_none() {
        return Ok(());
    }
    add_live(list, node.age, node.body.delegations())
}

/// What remains of the delegations of nodes.
pub(crate) fn announced(alloc: Global, nodes: &[Entry]) -> Result<Vec<Delegated>, NoMemory>
    ensures exact { IfOk result (λ list. (u : Delegated) → Contains list.items u ↔ IsLiveIn nodes.now u) }
    ensures valid { IfOk result (λ list. HasPrefixes list.items) }
{
    let mut list = Vec::new(alloc);
    for node in nodes {
        add_node(&mut list, node)?;
    }
    Ok(list)
}
