//! The set of a router: the running routers that it reaches.

ghost use Rattle.std.specs.Prelude.{◌≡◌, IfOk, filter, map, count_by};
ghost use Rattle.hn_audit.specs.First.{IsFirstFound};
ghost use Rattle.hn_audit.specs.FirstWitness.{FindsId, FindsKnown};
ghost use Rattle.hn_audit.specs.Reached.{runs_as};
ghost use Rattle.hn_audit.specs.Set.{is_in_set, members_of};

use crate::witness::Unsettled;
use hn_base::{Name, NoMemory, NodeId};
use hn_world::{Member, World};
use std::alloc::Global;

/// Whether a router runs and has that identifier.
fn runs_as(member: &Member, id: NodeId) -> bool
    ensures { result ≡ runs_as id member.now }
{
    member.running && member.router.id() == id
}

/// How many running routers have the identifier.
fn count_of(world: &World, id: NodeId) -> usize
    ensures { result ≡ count_by (runs_as id) world.now.parts.members }
{
    let members = world.members();
    members.iter().filter(|m| runs_as(m, id)).count()
}

/// Whether the identifier is that of no running router or of more than one.
fn unknown(world: &World, id: NodeId) -> Option<Unsettled>
    ensures { FindsId world.now.parts id result }
{
    match count_of(world, id) {
        0 => Some(Unsettled::Unknown { id }),
        1 => None,
        _ => Some(Unsettled::Shared { id }),
    }
}

/// The first identifier that is not that of exactly one running router.
pub(crate) fn first_unknown(world: &World, reach: &[NodeId]) -> Option<Unsettled>
    ensures { FindsKnown world.now.parts reach.now result }
{
    for id in reach {
        if let Some(found) = unknown(world, *id) {
            return Some(found);
        }
    }
    None
}

/// Whether a router runs, and has one of these identifiers.
pub(crate) fn is_in_set(member: &Member, reach: &[NodeId]) -> bool
    ensures { result ≡ is_in_set reach.now member.now }
{
    member.running && reach.contains(&member.router.id())
}

/// The running routers that have one of these identifiers, in order of definition.
pub(crate) fn set_of<'a>(
    alloc: Global,
    world: &'a World,
    reach: &[NodeId],
) -> Result<Vec<&'a Member>, NoMemory>
    ensures { IfOk result (λ set. members_of set.items ≡ filter (is_in_set reach.now) world.now.parts.members) }
{
    let mut set = Vec::new(alloc);
    for member in world.members() {
        if is_in_set(member, reach) {
            set.push(member)?;
        }
    }
    Ok(set)
}

/// The names of routers, in their order.
pub(crate) fn names_of(alloc: Global, set: &[&Member]) -> Result<Vec<Name>, NoMemory>
    ensures { IfOk result (λ names. names.items ≡ map (λ m. m.name) (members_of set.now)) }
{
    let mut names = Vec::new(alloc);
    for member in set {
        names.push(member.name)?;
    }
    Ok(names)
}
