//! A play by mail that is open: lines come one at a time, and each is played when it comes.

ghost use Rattle.std.specs.Prelude.{◌≡◌, ◌↔◌, ◌⊎◌, Some, IfOk, IsTrue};
ghost use Rattle.hn_script.specs.Entries.{IsEntry};
ghost use Rattle.hn_script.specs.Laws.{IsLimited};
ghost use Rattle.hn_script.specs.Line.{IsOfVersion, of_version};
ghost use Rattle.hn_script.specs.Script.{IsScript};
ghost use Rattle.hn_play.specs.declared.end.End.TheVariants as ends;
ghost use Rattle.hn_lab.specs.Open.{begun_play, LineGoes, GoesByText, ScriptHasNoRoom, PlayedLinesGoOn, PlainRefusalsChangeNothing};
ghost use Rattle.hn_lab.specs.OpenTranscript.{IsOfItsTranscript, LabPlaysTheSource};

use crate::course::{Course, OpenFault};
use crate::existing::written_is_of_transcript;
use crate::laws::mail_delivers;
use hn_base::{NoMemory, Version};
use hn_play::End;
use hn_script::{
    LARGE, Line, ReadFault, SOURCE_LIMIT, fault_excludes_script, line_is_unique, lines_are_added,
    read_line, script_is_unique,
};
use hn_world::World;
use std::alloc::Global;
use std::marker::Model;

/// A play by mail to which lines may be added: the lines so far are a script, and its text and its world are those of the play
/// of this script. It is over where a line was refused that may have happened in part, and where memory ended.
#[derive(Drop)]
pub struct OpenPlay {
    course: Course,
}

impl Model for OpenPlay {
    ghost use Rattle.hn_lab.specs.Course.{IsCourse, opened_of};
    ghost use Rattle.hn_lab.specs.Open.{Opened};

    ghost Value = { Opened };

    ghost view = { λ p. opened_of p.course };

    ghost invariant = { λ p. IsCourse p.course };
}

impl OpenPlay {
    /// A play of a version to which nothing was added. Where it is recorded, its world keeps its trace as long as there is
    /// memory, so that a log can be written of it.
    ///
    /// # Errors
    ///
    /// Out of memory.
    pub fn new(alloc: Global, version: Version, recorded: bool) -> Result<OpenPlay, NoMemory>
        ensures { IfOk result (λ play. play ≡ begun_play version) }
    {
        let course = Course::new(alloc, version, recorded)?;
        Ok(OpenPlay { course })
    }

    /// Whether lines may be added. Never allocates.
    pub fn is_open(&self) -> bool
        ensures { IsTrue result ↔ (self.now.end ≡ Some ends.Done) }
    {
        match self.course.end {
            Some(End::Done) => true,
            _ => false,
        }
    }

    /// The script of the lines so far: its first line, and the text of each line as it came, each with an LF. Never allocates.
    pub fn source(&self) -> &[u8]
        ensures source { result.now ≡ self.now.source }
        ensures is_script { IsScript self.now.script self.now.source }
    {
        lines_are_added();
        self.course.source.as_slice()
    }

    /// The text so far. Never allocates.
    pub fn text(&self) -> &[u8]
        ensures { result.now ≡ self.now.text }
    {
        self.course.text.as_slice()
    }

    /// The world that the lines so far led to. Never allocates.
    pub fn world(&self) -> &World
        ensures { result.now.parts ≡ self.now.world }
    {
        &self.course.playing.world
    }

    /// That the text so far is that of the transcript of the script so far, unless memory ended. Never allocates.
    pub fn is_of_transcript(&self)
        ensures { IsOfItsTranscript self.now }
    {
        let _course = &self.course;
    }

    /// A line that was read twice is played, where the script may have so many bytes.
    fn play_next(
        &mut self,
        alloc: Global,
        line: Line,
        same: Line,
        text: &[u8],
    ) -> Result<(), OpenFault>
        requires is_open { self.old.end ≡ Some ends.Done }
        requires same { same ≡ line }
        requires limited { IsLimited line }
        requires known { IsOfVersion self.old.script.version line }
        requires entry { IsEntry (of_version self.old.script.version) (Some line) text.now }
        ensures { LineGoes line text.now self.old self.new result ⊎ ScriptHasNoRoom text.now self.old self.new result }
    {
        if SOURCE_LIMIT - self.course.source.len() <= text.len() {
            return Err(OpenFault::Refused(LARGE));
        }
        return self.course.play_next(alloc, line, same, text);
    }

    /// A line is read and played; one that is skipped does nothing.
    ///
    /// # Errors
    ///
    /// The text is no line of the version, which refuses it with the code of its fault; the line is refused, with 15 where the
    /// script would have more than 2^24 bytes; or memory ended.
    pub fn line(&mut self, alloc: Global, text: &[u8]) -> Result<(), OpenFault>
        requires is_open { self.old.end ≡ Some ends.Done }
        ensures { GoesByText text.now self.old self.new result }
    {
        line_is_unique();
        let version = self.course.version;
        let line = match read_line(alloc, version, text) {
            Ok(Some(line)) => line,
            Ok(None) => return Ok(()),
            Err(ReadFault::Code(code)) => return Err(OpenFault::Refused(code)),
            Err(ReadFault::NoMemory) => return Err(OpenFault::NoMemory),
        };
        match read_line(alloc, version, text) {
            Ok(Some(same)) => return self.play_next(alloc, line, same, text),
            _ => return Err(OpenFault::NoMemory),
        }
    }
}

/// By mail, a plain line that is refused changes nothing.
pub fn plain_refusals_change_nothing()
    ensures { PlainRefusalsChangeNothing }
{
    mail_delivers();
}

/// Lines that are played on where others were done are played with these.
pub fn lines_go_on()
    ensures { PlayedLinesGoOn }
{}

/// What `lab` writes of the script of an open play is of the transcript so far: with status 0 or 2 it is the text so far, and the
/// world is that of the play.
pub fn lab_plays_the_source()
    ensures { LabPlaysTheSource }
{
    written_is_of_transcript();
    script_is_unique();
    fault_excludes_script();
}
