//! Laws of packing (RFC 7787, section 4.2), of the peers of an endpoint, and of what is due there.
//!
//! Each is the contract of a function that does nothing: call it to know its law.

ghost use Rattle.hn_dncp.specs.Laws.{PackingIsUnique, PackingExists, PackingIsShort, PackingIsNotEmpty, PackingIsRead, MeetingKeepsPeers, ContactKeepsPeers, UnduePortIsIdle, UnduePortStays};

use hn_timers::undue_interval_stays;

/// There is at most one packing of a list of TLVs.
pub fn packing_is_unique()
    ensures { PackingIsUnique }
{}

/// There is a packing of each list of TLVs. So there is exactly one.
pub fn packing_exists()
    ensures { PackingExists }
{}

/// A datagram has at most 4,000 bytes, or those of one of the TLVs and the 12 of the sender's Node Endpoint.
pub fn packing_is_short()
    ensures { PackingIsShort }
{}

/// Where there are TLVs there are datagrams.
pub fn packing_is_not_empty()
    ensures { PackingIsNotEmpty }
{}

/// The datagrams that TLVs are packed into are read as lists of TLVs: in each first the Node Endpoint of its sender,
/// and after these the TLVs that were packed, in order.
pub fn packing_is_read()
    ensures { PackingIsRead }
{}

/// Whoever is heard, the peers of an endpoint stay at most 64, and each endpoint of a node is there once.
pub fn peers_stay()
    ensures met { MeetingKeepsPeers }
    ensures contacted { ContactKeepsPeers }
{}

/// A tick does nothing at an endpoint if and only if nothing is due there.
pub fn undue_port()
    ensures { UnduePortIsIdle }
{}

/// Where nothing is due at an endpoint, nothing is until something is.
pub fn undue_port_stays()
    ensures { UnduePortStays }
{
    undue_interval_stays();
}
