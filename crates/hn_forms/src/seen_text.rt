//! The lines of what was seen on a link.

ghost use Rattle.std.specs.Prelude.{◌≡◌, IfOk, string_bytes};
ghost use Rattle.hn_forms.specs.Watch.{watch_line, seen_line};

use hn_base::Hex;
use hn_watch::Seen;
use std::alloc::{AllocError, Global};

/// The first line: how many datagrams there are, and how many of them are malformed.
///
/// # Errors
///
/// Out of memory, as `AllocError`.
pub fn watch_line(alloc: Global, datagrams: u64, malformed: u64) -> Result<String, AllocError>
    ensures { IfOk result (λ line. string_bytes line ≡ watch_line datagrams malformed) }
{
    format!(in alloc; "watch datagrams={datagrams} malformed={malformed}\n")
}

/// The line of a node that was seen.
///
/// # Errors
///
/// Out of memory, as `AllocError`.
pub fn seen_line(alloc: Global, seen: &Seen) -> Result<String, AllocError>
    ensures { IfOk result (λ line. string_bytes line ≡ seen_line seen.now) }
{
    let node = seen.node;
    let number = seen.number;
    let hash = Hex(seen.hash.as_slice());
    let conflicts = seen.conflicts;
    format!(in alloc; "node {node} number={number} hash={hash} conflicts={conflicts}\n")
}
