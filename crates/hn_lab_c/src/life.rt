ghost use Rattle.std.specs.Prelude.{◌≡◌, ◌≢◌, ◌↔◌, ◌≤◌, ◌⊎◌, None, IsSome, IfSome, IfNone};
ghost use Rattle.hn_lab_c.specs.Calls.{HasTakenLine, IsNewPlay, TakesLine, line_code, line_status, version_numbered};

use crate::handle::Handle;
use crate::status::{DONE, NO_MEMORY, OVER, REFUSED};
use hn_base::Version;
use hn_lab::{OpenFault, OpenPlay};
use std::alloc::Global;

/// The version of the language of scripts that has a number.
fn version_numbered(number: u8) -> Option<Version>
    ensures { result ≡ version_numbered number }
{
    match number {
        1 => Some(Version::One),
        2 => Some(Version::Two),
        _ => None,
    }
}

/// Makes a play of a version, 1 or 2, to which nothing was added. A handle that has one keeps it.
#[unsafe(no_mangle)]
pub extern "C" fn hn_lab_new(alloc: Global, lab: &mut Handle, version: u8) -> u8
    ensures made { result ≡ 0 → IsNewPlay version lab.new.held }
    ensures as_before { result ≢ 0 → lab.new.held ≡ lab.old.held }
    ensures refused { result ≡ 2 ↔ IsSome lab.old.held ⊎ (version_numbered version ≡ None) }
    ensures status { result ≤ 2 }
{
    if lab.has_play() {
        return REFUSED;
    }
    let Some(version) = version_numbered(version) else {
        return REFUSED;
    };
    let Ok(play) = OpenPlay::new(alloc, version, true) else {
        return NO_MEMORY;
    };
    let Ok(play) = Box::new(alloc, play) else {
        return NO_MEMORY;
    };
    *lab = Handle::of(play);
    DONE
}

/// Gives the play up, if there is one. The handle has none after.
#[unsafe(no_mangle)]
pub extern "C" fn hn_lab_free(alloc: Global, lab: &mut Handle)
    ensures { lab.new.held ≡ None }
{
    drop(lab.take(alloc));
}

/// The status and the code of what a line came to. Never allocates.
fn told(went: Result<(), OpenFault>) -> (u8, u8)
    ensures status { result.0 ≡ line_status went }
    ensures code { result.1 ≡ line_code went }
{
    match went {
        Ok(()) => (DONE, 0),
        Err(OpenFault::NoMemory) => (NO_MEMORY, 0),
        Err(OpenFault::Refused(code)) => (REFUSED, code),
        Err(OpenFault::Over(code)) => (OVER, code),
    }
}

/// Reads a line and plays it, unless the play is over.
fn line(alloc: Global, play: &mut OpenPlay, text: &[u8], code: &mut u8) -> u8
    ensures { TakesLine text.now play.old play.new result code.new }
{
    if !play.is_open() {
        *code = 0;
        return OVER;
    }
    let (status, why) = told(play.line(alloc, text));
    *code = why;
    status
}

/// Reads a line and plays it on the home so far. What it writes comes to the end of the text.
#[unsafe(no_mangle)]
pub extern "C" fn hn_lab_line(alloc: Global, lab: &mut Handle, text: &[u8], code: &mut u8) -> u8
    ensures taken { IfSome lab.old.held (λ before. HasTakenLine text.now before lab.new.held result code.new) }
    ensures none { IfNone lab.old.held ((lab.new.held ≡ None) × (result ≡ 2) × (code.new ≡ 0)) }
    ensures status { result ≤ 3 }
{
    let Some(mut play) = lab.take(alloc) else {
        *code = 0;
        return REFUSED;
    };
    let status = line(alloc, &mut play, text, code);
    *lab = Handle::of(play);
    status
}
