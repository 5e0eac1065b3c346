ghost use Rattle.std.specs.Prelude.{◌≡◌};
ghost use Rattle.hn_look.specs.Steps.{sender_endpoint};
ghost use Rattle.hn_lab_c.specs.Kinds.{as_bit, state_out};

use hn_base::Addr;
use hn_world::Member;

/// A copy of a datagram that a router sent, for one receiver.
#[repr(C)]
#[derive(Clone, Copy)]
pub struct MailCopy {
    /// The name of the router that it is from, with zeros after it.
    pub sender: [u8; 16],
    /// The name of the router that it goes to, likewise.
    pub receiver: [u8; 16],
    pub sender_endpoint: u32,
    pub receiver_endpoint: u32,
    /// 1 where it was sent to the receiver alone, and 0 where it is multicast.
    pub unicast: u8,
    /// 1 where it waits, and else 0.
    pub waiting: u8,
}

/// A router.
#[repr(C)]
#[derive(Clone, Copy)]
pub struct State {
    /// How many routers it reaches, itself among them.
    pub reach: u64,
    pub id: u32,
    /// The sequence number.
    pub number: u32,
    /// 1 where it runs, and else 0; so the others.
    pub running: u8,
    pub settled: u8,
    pub quiet: u8,
    pub sound: u8,
    /// The network state hash.
    pub hash: [u8; 8],
}

/// 1 where it is so, and else 0.
pub(crate) fn as_bit(so: bool) -> u8
    ensures { result ≡ as_bit so }
{
    if so { 1 } else { 0 }
}

/// A router as C sees it.
pub(crate) fn state_out(member: &Member, settled: bool, quiet: bool) -> State
    ensures { result ≡ state_out member.now settled quiet }
{
    let router = &member.router;
    State {
        reach: router.reach().len() as u64,
        id: router.id().0,
        number: router.number(),
        running: as_bit(member.running),
        settled: as_bit(settled),
        quiet: as_bit(quiet),
        sound: as_bit(settled && quiet),
        hash: router.net(),
    }
}

/// The endpoint that sends from an address.
pub(crate) fn sender_endpoint(from: Addr) -> u32
    ensures { result ≡ sender_endpoint from }
{
    (from.ip % (1 << 32)) as u32
}
