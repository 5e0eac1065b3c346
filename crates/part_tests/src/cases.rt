//! Cases as text.

use std::alloc::Global;
use std::fmt::Display;
use std::process::Abort;
use std::test::Fail;

/// The bytes that hexadecimal digits say.
pub fn bytes(alloc: Global, digits: &str) -> Result<Vec<u8>, Fail> {
    Ok(hex::decode(alloc, digits)?)
}

/// The first word of a line, and the rest.
pub fn parts(line: &str) -> Result<(&str, &str), Fail> {
    Ok(line.split_once(' ').ok_or("a line of two words")?)
}

/// The text of a value is this one.
pub fn says<T: Display>(rt: &impl Abort, alloc: Global, value: &T, text: &str) -> Result<(), Fail> {
    assert!(rt; value.to_string(alloc)?.as_str() == text, "{text}");
    Ok(())
}
