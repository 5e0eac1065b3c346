//! The line on what a router decided on a delegated prefix of its own making.

ghost use Rattle.std.specs.Prelude.{◌≡◌, ◌∷◌, [], IfOk, string_bytes};
ghost use Rattle.hn_report.specs.UlaLines.{ula_text, ula_line};

use hn_base::{Name, NoMemory};
use hn_streams::Lines;
use hn_ula::Ula;
use std::alloc::{AllocError, Global};

/// What a router decided.
fn ula_text(alloc: Global, decided: &Ula) -> Result<String, AllocError>
    ensures { IfOk result (λ text. string_bytes text ≡ ula_text decided.now) }
{
    match decided {
        Ula::Keep => String::from_str(alloc, "keep"),
        Ula::Announce(prefix) => {
            let prefix = prefix.text();
            format!(in alloc; "announce={prefix}")
        }
        Ula::Withdraw(prefix) => {
            let prefix = prefix.text();
            format!(in alloc; "withdraw={prefix}")
        }
    }
}

/// The line on what a router decided, alone.
pub fn ula_line(alloc: Global, name: &Name, decided: &Ula) -> Result<Lines, NoMemory>
    ensures { IfOk result (λ lines. lines ≡ ula_line name.now decided.now ∷ []) }
{
    let text = ula_text(alloc, decided)?;
    Lines::of(alloc, format!(in alloc; "ula {name} {text}\n")?)
}
