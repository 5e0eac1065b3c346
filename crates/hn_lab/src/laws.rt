//! Laws of plays. Each is the contract of a function that does nothing.

ghost use Rattle.hn_lab.specs.Breaking.{WireFailsAtACopy};
ghost use Rattle.hn_lab.specs.Laws.{AtMostOnePlay, AtMostOneCutPlay, CutTextsAreFronts, BrokenTextsAreFronts, MailDelivers, ResultsAreUnique};
ghost use Rattle.hn_lab.specs.Resting.{EventsKeepQuiet, LastingRunKeepsCalm, CalmLinesKeepCalm, RunBringsCalm, RunKeepsCalm};

use hn_addr::choice_is_unique;
use hn_advert::advert_is_unique;
use hn_audit::{calm_comes_and_lasts, quiet_homes_stay, rest_goes_in_turns};
use hn_deleg::usable_is_unique;
use hn_link::{common_link_is_unique, elected_is_unique};
use hn_router::router_has_one_advert;
use hn_sync::exchange_is_unique;
use hn_ula::decision_is_unique;
use hn_world::{agreement_is_unique, at_most_one_world, names_differ, step_is_unique};

/// What an event does, what a report tells of, and what a router chooses, is one thing.
fn results_are_unique()
    ensures { ResultsAreUnique }
{
    step_is_unique();
    agreement_is_unique();
    usable_is_unique();
    common_link_is_unique();
    elected_is_unique();
    router_has_one_advert();
    advert_is_unique();
    choice_is_unique();
    decision_is_unique();
    exchange_is_unique();
}

/// By mail, and over a wire that tells what waits, lines have at most one play that the wire does not end: one end, one
/// text, and one world with the random words that are to come.
pub fn at_most_one_play()
    ensures { AtMostOnePlay }
{
    results_are_unique();
}

/// At each line of its text, a play is cut in one way: with one text up to there, and one world.
pub fn at_most_one_cut_play()
    ensures { AtMostOneCutPlay }
{
    results_are_unique();
}

/// The text of a play that is cut, by the sink or out of memory, is a front of the text of the whole play, also
/// where it is cut in the middle of a line.
pub fn cut_text_is_a_front()
    ensures { CutTextsAreFronts }
{
    results_are_unique();
}

/// The text of a play that the wire ended is a front of the text of the whole play.
pub fn broken_text_is_a_front()
    ensures { BrokenTextsAreFronts }
{
    results_are_unique();
}

/// Where a wire that tells what waits ends a play, the play could as well have been cut right before a copy, and that
/// copy failed: what waited then is left, or that with the copy behind it.
pub fn wire_fails_at_a_copy()
    ensures { WireFailsAtACopy }
{
    results_are_unique();
}

/// By mail a delivery is no more than the event.
pub fn mail_delivers()
    ensures { MailDelivers }
{}

/// Over a line `run` by mail, without loss, with steps of at most 22 s, a calm home stays calm: settled and quiet, with the same
/// assignments. `lasting` and `lines` ask of the world at the beginning alone. And over such a line of 20 s or more a settled and
/// quiet home becomes calm, if its peers are linked and were heard less than 42 s before its end.
pub fn run_keeps_calm()
    ensures brings { RunBringsCalm }
    ensures way { RunKeepsCalm }
    ensures lasting { LastingRunKeepsCalm }
    ensures lines { CalmLinesKeepCalm }
{
    at_most_one_world();
    names_differ();
    mail_delivers();
    rest_goes_in_turns();
    calm_comes_and_lasts();
}

/// Over each event of a play a settled and quiet router stays so, as `QuietStays` says, also where memory ends later.
pub fn events_keep_quiet()
    ensures { EventsKeepQuiet }
{
    quiet_homes_stay();
}
