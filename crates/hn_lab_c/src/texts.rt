//! The text and the script of a play.

ghost use Rattle.std.specs.Prelude.{◌≡◌, ◌≢◌, ◌⊎◌, IfSome, IfNone, drop};
ghost use Rattle.hn_slot.specs.Room.{FillsRoom, OverflowsRoom};
ghost use Rattle.hn_lab.specs.OpenTranscript.{IsOfItsTranscript};
ghost use Rattle.hn_lab_c.specs.Scripts.{LabPlaysTheScript};
ghost use Rattle.hn_script.specs.Script.{IsScript};

use crate::handle::Handle;
use crate::status::{DONE, REFUSED};
use hn_lab::{OpenPlay, lab_plays_the_source};
use hn_slot::write;
use std::alloc::Global;

/// Writes bytes at the front of a room that has place for them, and counts them. Answers the status.
pub(crate) fn give(bytes: &[u8], count: &mut usize, room: &mut [u8]) -> u8
    ensures written { result ≡ 0 → FillsRoom bytes.now count.new room.old room.new }
    ensures no_room { result ≡ 2 → OverflowsRoom bytes.now count.new room.old }
    ensures as_before { result ≢ 0 → room.new ≡ room.old }
    ensures status { (result ≡ 0) ⊎ (result ≡ 2) }
{
    if write(bytes, count, room) {
        DONE
    } else {
        REFUSED
    }
}

/// The bytes from a place on; none where there are not so many.
fn rest(bytes: &[u8], from: usize) -> &[u8]
    ensures { result.now ≡ drop from bytes.now }
{
    &bytes[from.min(bytes.len())..]
}

/// How many bytes the text has from a place on, and these, where there is room.
#[unsafe(no_mangle)]
pub extern "C" fn hn_lab_text(
    alloc: Global,
    lab: &mut Handle,
    from: usize,
    count: &mut usize,
    room: &mut [u8],
) -> u8
    ensures kept { lab.new.held ≡ lab.old.held }
    ensures text { result ≡ 0 → IfSome lab.old.held (λ play. FillsRoom (drop from play.text) count.new room.old room.new) }
    ensures no_room { result ≡ 2 → IfSome lab.old.held (λ play. OverflowsRoom (drop from play.text) count.new room.old) }
    ensures transcript { IfSome lab.old.held IsOfItsTranscript }
    ensures none { IfNone lab.old.held ((result ≡ 2) × (count.new ≡ 0)) }
    ensures as_before { result ≢ 0 → room.new ≡ room.old }
    ensures status { (result ≡ 0) ⊎ (result ≡ 2) }
{
    let Some(play) = lab.take(alloc) else {
        *count = 0;
        return REFUSED;
    };
    play.is_of_transcript();
    let status = give(rest(play.text(), from), count, room);
    *lab = Handle::of(play);
    status
}

/// The script of the lines that were played, which `lab` plays to the text. Never allocates.
fn kept_script(play: &OpenPlay) -> &[u8]
    ensures source { result.now ≡ play.now.source }
    ensures is_script { IsScript play.now.script play.now.source }
    ensures lab { LabPlaysTheScript play.now }
{
    lab_plays_the_source();
    play.is_of_transcript();
    play.source()
}

/// How many bytes the script of the lines that were played has, and these, where there is room.
#[unsafe(no_mangle)]
pub extern "C" fn hn_lab_script(
    alloc: Global,
    lab: &mut Handle,
    count: &mut usize,
    room: &mut [u8],
) -> u8
    ensures kept { lab.new.held ≡ lab.old.held }
    ensures script { result ≡ 0 → IfSome lab.old.held (λ play. FillsRoom play.source count.new room.old room.new) }
    ensures no_room { result ≡ 2 → IfSome lab.old.held (λ play. OverflowsRoom play.source count.new room.old) }
    ensures is_script { IfSome lab.old.held (λ play. IsScript play.script play.source) }
    ensures lab { IfSome lab.old.held LabPlaysTheScript }
    ensures none { IfNone lab.old.held ((result ≡ 2) × (count.new ≡ 0)) }
    ensures as_before { result ≢ 0 → room.new ≡ room.old }
    ensures status { (result ≡ 0) ⊎ (result ≡ 2) }
{
    let Some(play) = lab.take(alloc) else {
        *count = 0;
        return REFUSED;
    };
    let status = give(kept_script(&play), count, room);
    *lab = Handle::of(play);
    status
}
