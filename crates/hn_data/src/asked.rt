//! What others ask of node data: links, version and keep-alive intervals.

ghost use Rattle.std.specs.Prelude.{◌≡◌, ◌↔◌, ◌==◌, List, find, IsTrue, IsSome};
ghost use Rattle.std.specs.Option.{option_map};
ghost use Rattle.std.specs.List.{filter_map};
ghost use Rattle.hn_typed.specs.Item.{PlainItem};
ghost use Rattle.hn_typed.specs.View.{plain_caps};
ghost use Rattle.hn_data.specs.Items.{AreItems, HasItems, first_of};
ghost use Rattle.hn_data.specs.Peers.{IsLinked};
ghost use Rattle.hn_data.specs.Said.{version_of, interval_of, interval_at, keep_alive_of, HasVersion};

use crate::node_data::NodeData;
use crate::said::{Interval, PeerLink};
use hn_base::{Caps, EpId, KEEP_ALIVE_INTERVAL, NodeId, is_in_set};

/// Whether endpoint `e` of node `x`, whose data is `a`, and endpoint `f` of node `y`, whose data is `b`, are linked:
/// each has a Peer for the other (RFC 7787, section 4.6). Never allocates.
pub fn linked(a: &NodeData, x: NodeId, e: EpId, b: &NodeData, y: NodeId, f: EpId) -> bool
    ensures { IsTrue result ↔ IsLinked a.now x.0 e.0 b.now y.0 f.0 }
{
    let there = PeerLink {
        endpoint: e,
        peer: y,
        peer_endpoint: f,
    };
    let back = PeerLink {
        endpoint: f,
        peer: x,
        peer_endpoint: e,
    };
    is_in_set(a.peers(), &there) && is_in_set(b.peers(), &back)
}

/// The priorities of the first HNCP-Version of the data (RFC 7788, section 10.1); `None` if and only if the data have
/// none. Never allocates.
pub fn version(a: &NodeData) -> Option<Caps>
    ensures some { HasItems a.now (λ items. option_map plain_caps result ≡ version_of items) }
    ensures each { (items : List PlainItem) → AreItems a.now items → option_map plain_caps result ≡ version_of items }
    ensures found { IsSome result ↔ HasVersion a.now }
{
    a.kept().version
}

// The first that is for this endpoint.
fn first_for(intervals: &[Interval], e: EpId) -> Option<Interval>
    ensures { result ≡ find (λ said. said.endpoint.0 == e.0) intervals.now }
{
    intervals.iter().find(|said| said.endpoint == e).copied()
}

// The interval of the first that is for this endpoint.
fn interval_at(intervals: &[Interval], e: EpId) -> Option<u32>
    ensures { result ≡ first_of (filter_map (interval_at e.0) intervals.now) }
{
    first_for(intervals, e).map(|said| said.interval)
}

/// The keep-alive interval of an endpoint, in milliseconds: that of the first Keep-Alive Interval for it, else of the
/// first for endpoint 0, else 20,000 (RFC 7787, section 6.1.5; RFC 7788, section 3). An interval of 0 says that no
/// keep-alives are sent. Never allocates.
pub fn keep_alive(a: &NodeData, e: EpId) -> u32
    ensures some { HasItems a.now (λ items. result ≡ keep_alive_of (filter_map interval_of items) e.0) }
    ensures each { (items : List PlainItem) → AreItems a.now items → result ≡ keep_alive_of (filter_map interval_of items) e.0 }
{
    let intervals = a.kept().intervals.as_slice();
    let every = interval_at(intervals, EpId(0)).unwrap_or(KEEP_ALIVE_INTERVAL);
    interval_at(intervals, e).unwrap_or(every)
}
