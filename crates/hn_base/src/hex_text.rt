//! Bytes and identifiers in hexadecimal.

ghost use Rattle.std.specs.Prelude.{◌≤◌, length};
ghost use Rattle.std.specs.Fmt.{WritesOnOk};
ghost use Rattle.hex.specs.Hex.{encode_lower};

use crate::ids::NodeId;
use crate::numeral::number;
use std::fmt;

/// How many bytes are written at a time.
const CHUNK: usize = 32;

/// Bytes that are printed as lower-case hexadecimal digits, two for each byte; no bytes are printed as `-`.
#[derive(Clone, Copy)]
pub struct Hex<'a>(pub &'a [u8]);

// Writes the digits of a few bytes.
fn write_chunk<W: fmt::Write>(f: &mut fmt::Formatter<W>, bytes: &[u8]) -> fmt::Result
    requires { length bytes.now ≤ CHUNK }
    ensures { WritesOnOk W.Write.write_str_gives f.old result (encode_lower bytes.now) f.new }
{
    let mut digits = [0; 64];
    let digits = &mut digits[..2 * bytes.len()];
    hex::encode_to_slice(bytes, digits).unwrap();
    f.write_str(str::from_utf8(digits).unwrap())
}

// Writes the digits of bytes.
fn write_digits<W: fmt::Write>(f: &mut fmt::Formatter<W>, bytes: &[u8]) -> fmt::Result
    ensures { WritesOnOk W.Write.write_str_gives f.old result (encode_lower bytes.now) f.new }
{
    let mut rest = bytes;
    while rest.len() > CHUNK {
        let (front, back) = rest.split_at(CHUNK);
        write_chunk(f, front)?;
        rest = back;
    }
    write_chunk(f, rest)
}

impl fmt::Display for Hex<'_> {
    ghost use Rattle.std.specs.Prelude.{Some};
    ghost use Rattle.hn_base.specs.HexText.{hex_text};

    ghost output = { λ hex. Some (hex_text hex.0.now) };

    fn fmt<W: fmt::Write>(&self, f: &mut fmt::Formatter<W>) -> fmt::Result {
        if self.0.is_empty() {
            return f.write_str("-");
        }
        write_digits(f, self.0)
    }
}

/// Printed as 8 lower-case hexadecimal digits.
impl fmt::Display for NodeId {
    ghost use Rattle.std.specs.Prelude.{Some};
    ghost use Rattle.hn_base.specs.HexText.{id_text};

    ghost output = { λ id. Some (id_text id.0) };

    fn fmt<W: fmt::Write>(&self, f: &mut fmt::Formatter<W>) -> fmt::Result {
        write_chunk(f, &self.0.to_be_bytes())
    }
}

impl NodeId {
    ghost use Rattle.std.specs.Prelude.{ℕ, IfSome, IfNone};
    ghost use Rattle.hn_base.specs.HexText.{IsIdText};

    /// The identifier that eight hexadecimal digits of either case write; `None` if and only if the text is no such
    /// one. Never allocates.
    pub fn parse(digits: &[u8]) -> Option<NodeId>
        ensures found { IfSome result (λ id. IsIdText digits.now id.0) }
        ensures none { IfNone result ((id : ℕ) → ¬ IsIdText digits.now id) }
    {
        if digits.len() != 8 {
            return None;
        }
        let value = number(digits, 16, 8)?;
        Some(NodeId(value as u32))
    }
}
