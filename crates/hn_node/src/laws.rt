//! Laws of a node's log. Each is the contract of a function that does nothing: call it to know its law.

ghost use Rattle.hn_node.specs.Laws.{TurnsAreLogged, LogLeadsOnce};

use hn_router::one_result;

/// The log of turns leads from the router before them to the router after them, also where the wire cut the last turn.
pub fn turns_are_logged()
    ensures { TurnsAreLogged }
{}

/// The router after a log, and the log, are functions of the router before it, the log's events with their moments, and the
/// random words.
pub fn log_leads_once()
    ensures { LogLeadsOnce }
{
    one_result();
}
