//! How a router asks another one for the network state.

ghost use Rattle.std.specs.Prelude.{◌≡◌, [], ◌∷◌, None, IfOk};
ghost use Rattle.hn_base.specs.Name.{name_text};
ghost use Rattle.hn_dncp.specs.Packing.{datagram_of};
ghost use Rattle.hn_world.specs.Mail.{address_of_target};
ghost use Rattle.hn_world.specs.Names.{router_place};
ghost use Rattle.hn_sync.specs.Exchange.{request, IsQuestion, unless_exchange};

use crate::joint::joint_of;
use hn_base::{Addr, Bytes, EpId, Name, NoMemory, NodeId};
use hn_typed::{Item, write};
use hn_world::{HNCP_PORT, WEvent, World, always_sound};
use std::alloc::Global;

/// The place of the router of a name, in order of definition.
fn place_of(world: &World, name: &Name) -> Option<usize>
    ensures { result ≡ router_place (name_text name.now) world.now.parts }
{
    let members = world.members();
    members
        .iter()
        .position(|m| m.name.as_str() == name.as_str())
}

/// The address of an endpoint of the router at a place.
fn address_of(place: usize, endpoint: EpId) -> Addr
    ensures { result ≡ address_of_target (record { place = place; endpoint = endpoint }) }
{
    let EpId(endpoint) = endpoint;
    Addr {
        ip: (0xfe80 << 112) + ((place as u128 + 1) << 32) + u128::from(endpoint),
        port: HNCP_PORT,
    }
}

/// The datagram with which an endpoint of a node asks for the network state: its Node Endpoint and a Request Network State
/// (RFC 7787, sections 7.2.1 and 7.1.1).
fn request(alloc: Global, node: NodeId, endpoint: EpId) -> Result<Bytes, NoMemory>
    ensures { IfOk result (λ bytes. bytes ≡ datagram_of node endpoint (request ∷ [])) }
{
    let mut bytes = Vec::new(alloc);
    let sender = Item::NodeEndpoint {
        node,
        endpoint,
        subs: &[],
    };
    write(&sender, &mut bytes)?;
    write(&Item::RequestNetwork { subs: &[] }, &mut bytes)?;
    Ok(Bytes::from(bytes))
}

/// The event with which b asks a for the network state.
pub(crate) fn question(alloc: Global, world: &World, a: &Name, b: &Name) -> Result<WEvent, NoMemory>
    requires { unless_exchange a.now b.now world.now.parts ≡ None }
    ensures { IfOk result (IsQuestion a.now b.now world.now.parts) }
{
    always_sound();
    world.is_replayed();
    let (Some(one), Some(two)) = (world.member(a), world.member(b)) else {
        unreachable!()
    };
    let (Some((e, f)), Some(place)) = (joint_of(one, two), place_of(world, b)) else {
        unreachable!()
    };
    Ok(WEvent::Inject {
        name: *a,
        endpoint: e,
        from: address_of(place, f),
        multicast: false,
        bytes: request(alloc, two.router.id(), f)?,
    })
}
