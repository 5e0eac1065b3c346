//! Whether an endpoint of a router can be asked: the router is there, runs, and has attached the endpoint.

ghost use Rattle.std.specs.Prelude.{◌≡◌, None, Some};
ghost use Rattle.hn_play.specs.Electing.{unless_on, unless_elects};

use hn_base::{EpId, Name};
use hn_world::{Member, NOT_ATTACHED, STOPPED, UNKNOWN, World};

/// The code where a router is stopped, or has not attached an endpoint.
pub fn unless_on(member: &Member, endpoint: EpId) -> Option<u8>
    ensures { result ≡ unless_on endpoint member.now }
{
    if !member.running {
        return Some(STOPPED);
    }
    if !member.router.attached(endpoint) {
        return Some(NOT_ATTACHED);
    }
    None
}

/// The code where there is no router of a name, it is stopped, or it has not attached an endpoint.
pub fn unless_elects(world: &World, name: &Name, endpoint: EpId) -> Option<u8>
    ensures { result ≡ unless_elects name.now endpoint world.now.parts }
{
    match world.member(name) {
        Some(member) => unless_on(member, endpoint),
        None => Some(UNKNOWN),
    }
}
