use crate::meaning::{Input, malformed_meaning};
use hn_base::number;
use std::fmt;

/// What the end of a text says of an input that was refused.
#[derive(Clone, Copy)]
pub enum Refusal {
    /// `refused LINE CODE`; the line is 0 where the input as a whole is meant.
    Refused { line: u64, code: u64 },
    /// `malformed place=PLACE why=CAUSE`.
    Malformed { place: u64, cause: u64 },
}

/// A number after a prefix, where a word is that.
fn number_after(word: Option<&[u8]>, prefix: &[u8]) -> Option<u64> {
    let digits = word?.strip_prefix(prefix)?;
    match number(digits, 10, 20) {
        Some(value) => u64::try_from(value).ok(),
        None => None,
    }
}

impl Refusal {
    /// The refusal that this line is, if it is one. Never allocates.
    pub fn read(text: &[u8]) -> Option<Refusal> {
        let line = text.strip_suffix(b"\n")?;
        let mut words = line.split(|byte| *byte == b' ');
        let first = words.next()?;
        let (second, third) = (words.next(), words.next());
        if first == b"refused".as_slice() {
            let (line, code) = (number_after(second, b"")?, number_after(third, b"")?);
            return Some(Refusal::Refused { line, code });
        }
        if first == b"malformed".as_slice() {
            let (place, cause) = (
                number_after(second, b"place=")?,
                number_after(third, b"why=")?,
            );
            return Some(Refusal::Malformed { place, cause });
        }
        None
    }

    /// What it means of this kind of input. Never allocates.
    pub fn of(self, input: Input) -> Reason {
        Reason {
            refusal: self,
            input,
        }
    }
}

/// Why an input was refused, in words.
#[derive(Clone, Copy)]
pub struct Reason {
    refusal: Refusal,
    input: Input,
}

/// As `in line 5 by code 2: the first word of a line is unknown in this version`.
impl fmt::Display for Reason {
    fn fmt<W: fmt::Write>(&self, f: &mut fmt::Formatter<W>) -> fmt::Result {
        match self.refusal {
            Refusal::Refused { line: 0, code: 7 } => {
                f.write_str("by code 7: no router of the script has this name")
            }
            Refusal::Refused { line: 0, code } => {
                let meaning = self.input.meaning(code);
                write!(f, "by code {code}: {meaning}")
            }
            Refusal::Refused { line, code } => {
                let meaning = self.input.meaning(code);
                write!(f, "in line {line} by code {code}: {meaning}")
            }
            Refusal::Malformed { place, cause } => {
                let meaning = malformed_meaning(cause);
                write!(f, "at place {place} by cause {cause}: {meaning}")
            }
        }
    }
}
