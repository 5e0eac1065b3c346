//! The parts of a play that is open, and how a line goes on with them.

ghost use Rattle.std.specs.Prelude.{◌≡◌, ◌<◌, ◌≤◌, ◌+◌, ◌++◌, ◌∷◌, ◌⊎◌, [], None, Some, Err, IfOk, OnOk, length, vec_len, vec_capacity};
ghost use Rattle.hn_script.specs.Entries.{IsEntry, most_bytes};
ghost use Rattle.hn_script.specs.Laws.{IsLimited};
ghost use Rattle.hn_script.specs.Line.{IsOfVersion, of_version};
ghost use Rattle.hn_script.specs.Script.{begun_script, script_text, with_line};
ghost use Rattle.hn_script.specs.Texts.{line_feed};
ghost use Rattle.hn_play.specs.declared.end.End.TheVariants as ends;
ghost use Rattle.hn_lab.specs.Course.{IsCourse, IsKeptSource, IsStoppedNext, opened_of, script_of};
ghost use Rattle.hn_lab.specs.Open.{LineGoes, HasAdded, begun_play, is_plain, unless_begun};

use crate::laws::mail_delivers;
use crate::of_line::report_of;
use crate::play_line::play_line;
use crate::text_so_far::TextSoFar;
use hn_base::{NoMemory, Sequence, Version};
use hn_play::{End, Mail, Playing, Stop};
use hn_script::{Line, Script, lines_are_added, print};
use hn_streams::write_refusal;
use hn_sync::unless_exchange;
use hn_world::{PAST, World};
use std::alloc::Global;

/// Why a line is not played to its end.
#[derive(Clone, Copy)]
pub enum OpenFault {
    /// It is refused with this code, and nothing changed.
    Refused(u8),
    /// It is refused with this code where part of it may have happened. The play is over.
    Over(u8),
    /// Out of memory. Nothing changed, or the play is over and has no transcript.
    NoMemory,
}

/// The parts of a play that is open: the play so far; the version and the lines of its script, and its bytes; how it ended, which
/// is done where lines may be added, and nothing where memory ended; and its text.
#[derive(Drop)]
pub struct Course {
    pub playing: Playing,
    pub version: Version,
    pub lines: Vec<(u32, Line)>,
    pub source: Vec<u8>,
    pub end: Option<End>,
    pub text: TextSoFar,
}

/// Whether a line that is refused changes nothing: one that is no more than an event, a report or a setting.
fn is_plain(line: &Line) -> bool
    ensures { result ≡ is_plain line.now }
{
    match line {
        Line::Run(..) => false,
        Line::Flow => false,
        Line::Sync(..) => false,
        Line::Address(_) => false,
        Line::Ula(_) => false,
        _ => true,
    }
}

/// The code with which a line that is not plain is refused where it begins.
fn unless_begun(world: &World, line: &Line) -> Option<u8>
    ensures { result ≡ unless_begun line.now world.now.parts }
{
    match line {
        Line::Run(end, _) => {
            if *end < world.moment() {
                Some(PAST)
            } else {
                None
            }
        }
        Line::Sync(left, right) => unless_exchange(world, left, right),
        Line::Address(name) => world.unless_runs(name),
        Line::Ula(name) => world.unless_runs(name),
        _ => None,
    }
}

/// The bytes of a script of a version, with no line after the first.
fn opening(alloc: Global, version: Version) -> Result<Vec<u8>, NoMemory>
    ensures { IfOk result (λ bytes. bytes.items ≡ script_text (begun_script version)) }
{
    let script = Script {
        version,
        lines: Sequence::new(alloc),
    };
    let bytes = print(alloc, &script)?;
    Ok(bytes.into_vec())
}

impl Course {
    /// A play of a version to which nothing was added. Its world records its trace or not.
    ///
    /// # Errors
    ///
    /// Out of memory.
    pub(crate) fn new(alloc: Global, version: Version, recorded: bool) -> Result<Course, NoMemory>
        ensures begun { IfOk result (λ course. opened_of course ≡ begun_play version) }
        ensures played { IfOk result IsCourse }
    {
        lines_are_added();
        let source = opening(alloc, version)?;
        Ok(Course {
            playing: Playing::new(alloc, version, recorded),
            version,
            lines: Vec::new(alloc),
            source,
            end: Some(End::Done),
            text: TextSoFar::new(alloc),
        })
    }

    /// Memory ended.
    fn starve(&mut self) -> OpenFault
        requires kept { IsKeptSource (script_of self.old) self.old.source.items }
        ensures played { IsCourse self.new }
        ensures over { (result ≡ OpenFault.NoMemory) × (self.new.end ≡ None) }
    {
        self.end = None;
        OpenFault::NoMemory
    }

    /// Room is made for one line more, of a text of so many bytes.
    ///
    /// # Errors
    ///
    /// Out of memory.
    fn make_room(&mut self, bytes: usize) -> Result<(), NoMemory>
        requires few { bytes < most_bytes }
        ensures lines { OnOk result (vec_len self.new.lines < vec_capacity self.new.lines) }
        ensures source { OnOk result (vec_len self.new.source + bytes + 1 ≤ vec_capacity self.new.source) }
        ensures as_before { opened_of self.new ≡ opened_of self.old }
        ensures plays_on { self.new.playing ≡ self.old.playing }
    {
        self.lines.reserve(1)?;
        self.source.reserve(bytes + 1)?;
        Ok(())
    }

    /// The number of the next line.
    fn next_number(&self) -> u32
        requires { IsKeptSource (script_of self.now) self.now.source.items }
        ensures { result ≡ length self.now.lines.items + 2 }
    {
        lines_are_added();
        let lines = self.lines.as_slice();
        lines.len() as u32 + 2
    }

    /// A line is added, of this text, for which there is room.
    fn add(&mut self, line: Line, text: &[u8])
        requires kept { IsKeptSource (script_of self.old) self.old.source.items }
        requires fits { length self.old.source.items + length text.now < most_bytes }
        requires lines { vec_len self.old.lines < vec_capacity self.old.lines }
        requires bytes { vec_len self.old.source + length text.now + 1 ≤ vec_capacity self.old.source }
        requires entry { IsEntry (of_version self.old.version) (Some line) text.now }
        ensures kept { IsKeptSource (script_of self.new) self.new.source.items }
        ensures script { script_of self.new ≡ with_line line (script_of self.old) }
        ensures source { self.new.source.items ≡ self.old.source.items ++ text.now ++ line_feed ∷ [] }
        ensures rest { (self.new.playing ≡ self.old.playing) × (self.new.end ≡ self.old.end) × (self.new.text ≡ self.old.text) }
    {
        lines_are_added();
        let number = self.next_number();
        self.lines.push_reserved((number, line));
        let Ok(()) = self.source.extend_from_slice(text) else {
            unreachable!()
        };
        self.source.push_reserved(b'\n');
    }

    /// A line that was refused in part is added, and the text says so.
    fn refuse(&mut self, alloc: Global, line: Line, text: &[u8], code: u8) -> OpenFault
        requires kept { IsKeptSource (script_of self.old) self.old.source.items }
        requires fits { length self.old.source.items + length text.now < most_bytes }
        requires lines { vec_len self.old.lines < vec_capacity self.old.lines }
        requires bytes { vec_len self.old.source + length text.now + 1 ≤ vec_capacity self.old.source }
        requires entry { IsEntry (of_version self.old.version) (Some line) text.now }
        requires stopped { IsStoppedNext line code self.old }
        ensures played { IsCourse self.new }
        ensures goes { (result ≡ OpenFault.Over code) × HasAdded line text.now (opened_of self.old) (opened_of self.new)
            × (self.new.end ≡ Some (ends.Refused (length self.old.lines.items + 2) code))
            ⊎ (result ≡ OpenFault.NoMemory) × (self.new.end ≡ None) }
    {
        let number = self.next_number();
        let Ok(()) = write_refusal(alloc, &mut self.text, number, code) else {
            return self.starve();
        };
        self.add(line, text);
        self.end = Some(End::Refused { line: number, code });
        OpenFault::Over(code)
    }

    /// A line for which there is room is played. It is given twice: it is played, and added.
    fn go_on(&mut self, alloc: Global, line: Line, same: Line, text: &[u8]) -> Result<(), OpenFault>
        requires is_open { self.old.end ≡ Some ends.Done }
        requires same { same ≡ line }
        requires limited { IsLimited line }
        requires known { IsOfVersion self.old.version line }
        requires fits { length self.old.source.items + length text.now < most_bytes }
        requires lines { vec_len self.old.lines < vec_capacity self.old.lines }
        requires bytes { vec_len self.old.source + length text.now + 1 ≤ vec_capacity self.old.source }
        requires entry { IsEntry (of_version self.old.version) (Some line) text.now }
        requires played { IsCourse self.old }
        ensures played { IsCourse self.new }
        ensures goes { LineGoes line text.now (opened_of self.old) (opened_of self.new) result }
    {
        mail_delivers();
        let plain = is_plain(&line);
        let is_report = report_of(&line).is_some();
        let so_far = self.text.len();
        match play_line(
            &mut self.playing,
            alloc,
            &mut self.text,
            &Mail,
            &mut (),
            line,
        ) {
            Ok(()) => {
                self.add(same, text);
                return Ok(());
            }
            Err(Stop::Refused(code)) => {
                if plain {
                    return Err(OpenFault::Refused(code));
                }
                return Err(self.refuse(alloc, same, text, code));
            }
            Err(_) => {
                if is_report {
                    self.text.cut(so_far);
                    return Err(OpenFault::NoMemory);
                }
                return Err(self.starve());
            }
        }
    }

    /// A line is played, unless it is refused where it begins. It is given twice: it is played, and added.
    pub(crate) fn play_next(
        &mut self,
        alloc: Global,
        line: Line,
        same: Line,
        text: &[u8],
    ) -> Result<(), OpenFault>
        requires is_open { self.old.end ≡ Some ends.Done }
        requires same { same ≡ line }
        requires limited { IsLimited line }
        requires known { IsOfVersion self.old.version line }
        requires fits { length self.old.source.items + length text.now < most_bytes }
        requires entry { IsEntry (of_version self.old.version) (Some line) text.now }
        requires played { IsCourse self.old }
        ensures played { IsCourse self.new }
        ensures goes { LineGoes line text.now (opened_of self.old) (opened_of self.new) result }
    {
        if let Some(code) = unless_begun(&self.playing.world, &line) {
            return Err(OpenFault::Refused(code));
        }
        if self.make_room(text.len()).is_err() {
            return Err(OpenFault::NoMemory);
        }
        return self.go_on(alloc, line, same, text);
    }
}
