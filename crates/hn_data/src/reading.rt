//! Node data read once.

ghost use Rattle.std.specs.Prelude.{[], OnOk, IfOk};
ghost use Rattle.hn_tlv.specs.Grammar.{HasTlvs};
ghost use Rattle.hn_data.specs.Items.{HasItems};
ghost use Rattle.hn_data.specs.Kept.{AreKept, IsKeptBeside};

use crate::kept::Kept;
use crate::walk::tlv_at;
use hn_base::{NoMemory, sort_to_set};
use hn_tlv::list_grows;
use std::alloc::Global;

// Adds what the TLVs say to nothing.
fn add_all(kept: &mut Kept, bytes: &[u8]) -> Result<(), NoMemory>
    requires none { AreKept [] kept.old }
    requires list { HasTlvs bytes.now }
    ensures { OnOk result (HasItems bytes.now (λ items. AreKept items kept.new)) }
{
    list_grows();
    let mut place = 0;
    while let Some((tlv, after)) = tlv_at(bytes, place) {
        kept.add(&tlv)?;
        place = after;
    }
    Ok(())
}

/// How many bytes a Peer without sub-TLVs has.
const PEER_SIZE: usize = 16;

/// For so many Peers there is room from the beginning, if the data have the bytes for them.
const MANY_PEERS: usize = 64;

/// What the bytes say.
pub(crate) fn read_kept(alloc: Global, bytes: &[u8]) -> Result<Kept, NoMemory>
    requires { HasTlvs bytes.now }
    ensures { IfOk result (IsKeptBeside bytes.now) }
{
    let peers = (bytes.len() / PEER_SIZE).min(MANY_PEERS);
    let mut kept = Kept::with_room(alloc, peers)?;
    add_all(&mut kept, bytes)?;
    sort_to_set(&mut kept.peers);
    Ok(kept)
}
