ghost use Rattle.std.specs.Prelude.{IfOk};
ghost use Rattle.hn_data.specs.View.{plain_view};
ghost use Rattle.hn_deleg.specs.Used.{AreUsable};

use crate::announcements::announced;
use crate::delegated::Delegated;
use crate::greatest::with_lifetimes;
use crate::nesting::{outermost, prefixes};
use hn_base::{NoMemory, Sequence, sort_to_set};
use hn_data::View;
use std::alloc::Global;

/// How many delegated prefixes are used at most.
const MOST: usize = 32;

/// The usable delegated prefixes in ascending order (RFC 7788, sections 6.2 and 6.3): of the candidates that are not
/// strictly inside another, the first 32. A candidate is a Delegated-Prefix inside an External-Connection of a
/// reachable node with an HNCP-Version, of at most 64 bits and with a valid lifetime that has not ended. Its lifetimes
/// are the greatest that its announcements leave, in milliseconds.
///
/// The work is near linear in the announcements.
///
/// # Errors
///
/// Out of memory.
pub fn used(alloc: Global, view: &View<'_>) -> Result<Sequence<Delegated>, NoMemory>
    ensures { IfOk result (AreUsable (plain_view view.entry.now)) }
{
    let live = announced(alloc, view.nodes)?;
    let mut candidates = prefixes(alloc, live.as_slice())?;
    sort_to_set(&mut candidates);
    let mut first = outermost(alloc, candidates.as_slice())?;
    first.truncate(MOST);
    let usable = with_lifetimes(alloc, live.as_slice(), first.as_slice())?;
    Ok(Sequence::from(usable))
}
