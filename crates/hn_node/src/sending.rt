//! Datagrams are handed to the wire.

ghost use Rattle.std.specs.Prelude.{◌≡◌, ◌≤◌, [], ◌∷◌, None, All, Err, length, OnOk, OnErr};
ghost use Rattle.hn_io.specs.Faults.{IsCaused};
ghost use Rattle.hn_node.specs.Turns.{handed_to, handed_by, handed_of};
ghost use Rattle.hn_node.specs.Steps.{plain_site, HandsAll, HandsPart};

use hn_io::IoFault;
use hn_rules::Outgoing;
use hn_wire::Wire;

/// The port of a node, and those of its peers.
#[derive(Clone, Copy)]
pub(crate) struct Site<'a> {
    pub(crate) port: u16,
    pub(crate) peers: &'a [u16],
}

/// Sends a datagram, and counts it.
fn send_one<W: Wire>(
    wire: &mut W,
    from: u16,
    to: u16,
    bytes: &[u8],
    sent: &mut u64,
) -> Result<(), IoFault>
    requires { length bytes.now ≤ 65507 }
    ensures ok { OnOk result (HandsAll (record { from = from; to = to; bytes = bytes.now } ∷ []) (W.waiting wire.old) (W.waiting wire.new) sent.old sent.new) }
    ensures waiting { OnErr result (W.waiting wire.new ≡ W.waiting wire.old) }
    ensures sent { OnErr result (sent.new ≡ sent.old) }
    ensures caused { IsCaused (result ≡ Err IoFault.Failed) (W.faults wire.old) (W.faults wire.new)
        (W.never_fails wire.old) (W.never_fails wire.new) }
{
    wire.send(from, to, bytes)?;
    *sent = sent.saturating_add(1);
    Ok(())
}

/// Sends a datagram from the port to the port after that of each peer, in order.
fn multicast<W: Wire>(
    wire: &mut W,
    site: &Site<'_>,
    bytes: &[u8],
    sent: &mut u64,
) -> Result<(), IoFault>
    requires peers { All (λ peer. peer ≤ 65534) site.now.peers.now }
    requires short { length bytes.now ≤ 65507 }
    ensures ok { OnOk result (HandsAll (handed_to (plain_site site.now) None bytes.now) (W.waiting wire.old) (W.waiting wire.new) sent.old sent.new) }
    ensures cut { OnErr result (HandsPart (handed_to (plain_site site.now) None bytes.now) (W.waiting wire.old) (W.waiting wire.new) sent.old sent.new) }
    ensures caused { IsCaused (result ≡ Err IoFault.Failed) (W.faults wire.old) (W.faults wire.new)
        (W.never_fails wire.old) (W.never_fails wire.new) }
{
    for peer in site.peers {
        send_one(wire, site.port, *peer + 1, bytes, sent)?;
    }
    Ok(())
}

/// Hands a datagram of the router's to the wire.
fn hand_one<W: Wire>(
    wire: &mut W,
    site: &Site<'_>,
    send: &Outgoing,
    sent: &mut u64,
) -> Result<(), IoFault>
    requires peers { All (λ peer. peer ≤ 65534) site.now.peers.now }
    requires short { length send.now.bytes ≤ 65507 }
    ensures ok { OnOk result (HandsAll (handed_by (plain_site site.now) send.now) (W.waiting wire.old) (W.waiting wire.new) sent.old sent.new) }
    ensures cut { OnErr result (HandsPart (handed_by (plain_site site.now) send.now) (W.waiting wire.old) (W.waiting wire.new) sent.old sent.new) }
    ensures caused { IsCaused (result ≡ Err IoFault.Failed) (W.faults wire.old) (W.faults wire.new)
        (W.never_fails wire.old) (W.never_fails wire.new) }
{
    let bytes = send.bytes.as_slice();
    match send.to {
        None => multicast(wire, site, bytes, sent),
        Some(to) => send_one(wire, site.port, to.port, bytes, sent),
    }
}

/// Hands datagrams of the router's to the wire, in order.
pub(crate) fn hand_all<W: Wire>(
    wire: &mut W,
    site: &Site<'_>,
    sends: &[Outgoing],
    sent: &mut u64,
) -> Result<(), IoFault>
    requires peers { All (λ peer. peer ≤ 65534) site.now.peers.now }
    requires short { All (λ send. length send.bytes ≤ 65507) sends.now }
    ensures ok { OnOk result (HandsAll (handed_of (plain_site site.now) sends.now) (W.waiting wire.old) (W.waiting wire.new) sent.old sent.new) }
    ensures cut { OnErr result (HandsPart (handed_of (plain_site site.now) sends.now) (W.waiting wire.old) (W.waiting wire.new) sent.old sent.new) }
    ensures caused { IsCaused (result ≡ Err IoFault.Failed) (W.faults wire.old) (W.faults wire.new)
        (W.never_fails wire.old) (W.never_fails wire.new) }
{
    for send in sends {
        hand_one(wire, site, send, sent)?;
    }
    Ok(())
}
