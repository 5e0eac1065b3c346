ghost use Rattle.std.specs.Prelude.{◌≡◌, ℕ, List, [], IfOk, Ok, Err};
ghost use Rattle.std.specs.Io.KnownBytes.{Appends};
ghost use Rattle.std.specs.List.{AllByRecursion};
ghost use Rattle.hn_io.specs.Faults.{IsCaused};
ghost use Rattle.hn_base.specs.declared.version.Version.{Version};
ghost use Rattle.hn_script.specs.Laws.{IsLimited};
ghost use Rattle.hn_script.specs.Line.{IsOfVersion};
ghost use Rattle.hn_play.specs.Carrying.{IsLeftAt};
ghost use Rattle.hn_streams.specs.Output.{AppendsFront};
ghost use Rattle.hn_lab.specs.Output.{IsCutText};
ghost use Rattle.hn_lab.specs.Play.{IsPlay, IsCut, IsCutPlay};
ghost use Rattle.hn_play.specs.Stage.{Stage, stage_of};
ghost use Rattle.hn_play.specs.Told.{bytes_of};
ghost use Rattle.hn_play.specs.declared.end.End.TheVariants as end;

use crate::play_line::play_line;
use hn_io::{IoFault, Sink};
use hn_play::{Carrier, End, Playing, Stop};
use hn_script::Line;
use hn_streams::write_refusal;
use std::alloc::Global;

/// Plays lines one after another, each with its number, and writes each line of text right when it comes up. The
/// first line that is refused ends the play with its text, and so does the wire where it fails. The first call on the sink
/// that fails ends it without.
pub(crate) fn play_lines<K: Sink, W, C: Carrier<W>>(
    playing: &mut Playing,
    alloc: Global,
    lines: Vec<(u32, Line)>,
    out: &mut K,
    carrier: &C,
    outside: &mut W,
) -> Result<End, IoFault>
    requires limited { AllByRecursion (λ line. IsLimited line.1) lines.items }
    requires of_version { (version : Version) × AllByRecursion (λ line. IsOfVersion version line.1) lines.items }
    ensures whole { IfOk result (λ end. (after : Stage)
        × IsPlay lines.items end (stage_of playing.old (C.route carrier.now outside.old) []) after
        × (after ≡ stage_of playing.new (C.route carrier.now outside.new) after.text)
        × Appends (K.held out.old) (K.held out.new) (bytes_of after.text)) }
    ensures cut { result ≡ Err IoFault.Failed → (after : Stage) × (written : List ℕ)
        × IsCutPlay lines.items (stage_of playing.old (C.route carrier.now outside.old) []) after
        × (after ≡ stage_of playing.new (C.route carrier.now outside.new) after.text)
        × IsCutText after.text written × Appends (K.held out.old) (K.held out.new) written }
    ensures starved { result ≡ Err IoFault.NoMemory → (after : Stage)
        × IsCut IoFault.NoMemory lines.items (stage_of playing.old (C.route carrier.now outside.old) []) after
        × IsLeftAt after (C.route carrier.now outside.new)
        × AppendsFront (K.held out.old) (K.held out.new) (bytes_of after.text) }
    ensures caused { IsCaused (result ≡ Err IoFault.Failed) (K.faults out.old) (K.faults out.new)
        (K.never_fails out.old) (K.never_fails out.new) }
    ensures wire_caused { IsCaused (result ≡ Ok end.WireFailed) (C.faults outside.old) (C.faults outside.new)
        (C.never_fails outside.old) (C.never_fails outside.new) }
{
    let _total = lines.len();
    for (number, next) in lines {
        match play_line(playing, alloc, out, carrier, outside, next) {
            Ok(()) => {}
            Err(Stop::Refused(code)) => {
                write_refusal(alloc, out, number, code)?;
                return Ok(End::Refused { line: number, code });
            }
            Err(Stop::WireFailed) => return Ok(End::WireFailed),
            Err(Stop::Cut(fault)) => return Err(fault),
        }
    }
    Ok(End::Done)
}
