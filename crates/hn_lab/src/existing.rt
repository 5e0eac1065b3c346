//! By mail each script has a play, and one transcript. Each law is the contract of a function that does nothing.

ghost use Rattle.hn_lab.specs.Existing.{PlayExists, ScriptHasAPlay};
ghost use Rattle.hn_lab.specs.Transcripts.{DoneOrRefused, TranscriptExists, TranscriptIsUnique, WrittenIsOfTranscript, PlayIsOfTranscript, LabIsOfTranscript};

use crate::laws::{at_most_one_play, cut_text_is_a_front};
use hn_addr::{choice_exists, chosen_addresses_fit, still_addresses_stay};
use hn_advert::written_is_read;
use hn_audit::{settled_and_quiet_is_sound, settled_see_each_other};
use hn_deleg::usable_exists;
use hn_router::{advert_exists, elected_exists};
use hn_rules::{
    entries_are_as_known, own_addresses_are_said, own_version_is_said, view_is_a_network,
};
use hn_script::{fault_excludes_script, script_is_limited, script_is_unique, values_fit};
use hn_sync::{exchange_exists, exchange_repairs};
use hn_ula::{announced_is_a_prefix, decision_exists};
use hn_world::{
    agreement_exists, always_sound, at_most_one_world, each_event_is_entered, step_exists,
};

/// By mail, lines whose values fit have a play: it cannot be that they have none. With `at_most_one_play` they have exactly
/// one.
pub fn play_exists()
    ensures { PlayExists }
{
    step_exists();
    each_event_is_entered();
    at_most_one_world();
    always_sound();
    advert_exists();
    written_is_read();
    usable_exists();
    elected_exists();
    agreement_exists();
    settled_and_quiet_is_sound();
    settled_see_each_other();
    own_version_is_said();
    own_addresses_are_said();
    still_addresses_stay();
    view_is_a_network();
    entries_are_as_known();
    choice_exists();
    chosen_addresses_fit();
    decision_exists();
    announced_is_a_prefix();
    exchange_exists();
    exchange_repairs();
}

/// By mail each script has a play: it cannot be that it has none. With `at_most_one_play` it has exactly one.
pub fn script_has_a_play()
    ensures { ScriptHasAPlay }
{
    play_exists();
    script_is_limited();
    values_fit();
}

/// By mail a script has a transcript: it cannot be that it has none, nor that its lines can neither be played to their end nor
/// is one refused. It has at most one.
pub fn transcript_exists()
    ensures exists { TranscriptExists }
    ensures decided { DoneOrRefused }
    ensures unique { TranscriptIsUnique }
{
    script_has_a_play();
    at_most_one_play();
}

/// What a play by mail writes is a front of the transcript of its script; with status 0 or 2 it is the transcript.
pub fn written_is_of_transcript()
    ensures { WrittenIsOfTranscript }
{
    at_most_one_play();
    cut_text_is_a_front();
}

/// What the play of a script comes to by mail is of its transcript.
pub fn play_is_of_transcript()
    ensures { PlayIsOfTranscript }
{
    transcript_exists();
    written_is_of_transcript();
}

/// What `lab` comes to by mail is of the transcript of each script that its source has.
pub fn lab_is_of_transcript()
    ensures { LabIsOfTranscript }
{
    transcript_exists();
    written_is_of_transcript();
    script_is_unique();
    fault_excludes_script();
}
