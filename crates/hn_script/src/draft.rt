ghost use Rattle.std.specs.Prelude.{ℕ, List, IfOk};
ghost use Rattle.hn_script.specs.Field.{IsHexWord};
ghost use Rattle.hn_script.specs.Draft.{IsDraftOf};
ghost use Rattle.hn_script.specs.declared.line.Line.{Line};

use crate::line::{How, Line};
use hn_base::{Bytes, EpId, Name, NoMemory};
use std::alloc::Global;

/// A line as it is read, before any memory is taken: the bytes of a datagram are still digits.
#[derive(Drop)]
pub(crate) enum Draft<'a> {
    Whole(Line),
    Injected(Name, EpId, How, &'a [u8]),
}

impl Draft<'_> {
    /// The line of this draft.
    pub(crate) fn into_line(self, alloc: Global) -> Result<Line, NoMemory>
        requires { (line : Line) × IsDraftOf self line }
        ensures { IfOk result (λ line. IsDraftOf self.entry line) }
    {
        match self {
            Draft::Whole(line) => Ok(line),
            Draft::Injected(name, endpoint, how, digits) => {
                let bytes = decoded(alloc, digits)?;
                Ok(Line::Inject(name, endpoint, how, bytes))
            }
        }
    }
}

/// The bytes that this word writes in hexadecimal.
pub(crate) fn decoded(alloc: Global, word: &[u8]) -> Result<Bytes, NoMemory>
    requires { (bytes : List ℕ) × IsHexWord bytes word.now }
    ensures { IfOk result (λ bytes. IsHexWord bytes word.now) }
{
    if word == b"-".as_slice() {
        return Ok(Bytes::new(alloc));
    }
    match hex::decode(alloc, word) {
        Ok(bytes) => Ok(Bytes::from(bytes)),
        Err(_) => Err(NoMemory),
    }
}
