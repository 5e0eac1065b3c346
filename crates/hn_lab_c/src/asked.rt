//! The router that is asked for.

ghost use Rattle.std.specs.Prelude.{◌≡◌, ◌↔◌, None, false, IfSome, IsTrue, IsSome};
ghost use Rattle.hn_audit.specs.Reached.{runs};
ghost use Rattle.hn_base.specs.Name.{name_text};
ghost use Rattle.hn_world.specs.Names.{member_named};

use hn_base::Name;
use hn_world::World;

/// The name of a router, stopped or not, from its text. Never allocates.
pub(crate) fn named(world: &World, text: &[u8]) -> Option<Name>
    ensures some { IfSome result (λ name. (name_text name ≡ text.now) × IsSome (member_named text.now world.now.parts)) }
    ensures none { (result ≡ None) ↔ (member_named text.now world.now.parts ≡ None) }
{
    let Some(name) = Name::new(text) else {
        return None;
    };
    match world.router(&name) {
        Some(_) => Some(name),
        None => None,
    }
}

/// The name of a router that runs, from its text. Never allocates.
pub(crate) fn running(world: &World, text: &[u8]) -> Option<Name>
    ensures some { IfSome result (λ name. (name_text name ≡ text.now) × IsTrue (runs text.now world.now.parts)) }
    ensures none { (result ≡ None) ↔ (runs text.now world.now.parts ≡ false) }
{
    let Some(name) = Name::new(text) else {
        return None;
    };
    if world.running(&name) {
        Some(name)
    } else {
        None
    }
}
