//! What is said by a template, in which digits stand for parts.

ghost use Rattle.std.specs.Prelude.{◌≡◌, ◌++◌, OnOk, string_bytes};
ghost use Rattle.hn_why.specs.Parts.{filled, filled_in};

use crate::link::LinkName;
use hn_base::{EpId, Moment, Name, NodeId};
use hn_prefix::Prefix;
use std::alloc::AllocError;
use std::fmt;

/// A part of what is said.
#[derive(Clone, Copy)]
pub enum Part {
    Name(Name),
    Node(NodeId),
    Endpoint(EpId),
    Number(u32),
    Moment(Moment),
    Prefix(Prefix),
    Link(LinkName),
}

impl fmt::Display for Part {
    ghost use Rattle.std.specs.Prelude.{Some};
    ghost use Rattle.hn_why.specs.Parts.{text_of_part};

    ghost output = { λ part. Some (text_of_part part) };

    fn fmt<W: fmt::Write>(&self, f: &mut fmt::Formatter<W>) -> fmt::Result {
        match self {
            Part::Name(name) => write!(f, "{name}"),
            Part::Node(node) => write!(f, "{node}"),
            Part::Endpoint(endpoint) => write!(f, "{}", endpoint.0),
            Part::Number(number) => write!(f, "{number}"),
            Part::Moment(moment) => write!(f, "{moment}"),
            Part::Prefix(prefix) => write!(f, "{}", prefix.text()),
            Part::Link(link) => write!(f, "{link}"),
        }
    }
}

/// Adds a character of a template, or the part that it stands for: `0` stands for the first.
fn push_filled(text: &mut String, byte: u8, parts: &[Part]) -> Result<(), AllocError>
    ensures { OnOk result (string_bytes text.new ≡ string_bytes text.old ++ filled parts.now byte) }
{
    if let Some(place) = byte.checked_sub(b'0') {
        if let Some(part) = parts.get(usize::from(place)) {
            return write!(text, "{part}");
        }
    }
    text.push(char::from(byte % 128))
}

/// Adds what a template of ASCII says with these parts.
///
/// # Errors
///
/// Out of memory.
pub fn say(text: &mut String, template: &str, parts: &[Part]) -> Result<(), AllocError>
    ensures { OnOk result (string_bytes text.new ≡ string_bytes text.old ++ filled_in parts.now template.now) }
{
    for byte in template.as_bytes() {
        push_filled(text, *byte, parts)?;
    }
    Ok(())
}
