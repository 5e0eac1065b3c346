use std::alloc::Global;
use std::rt::Env;
use std::{env, io};

/// The words of the command line, or an error of the system. A word that is not Unicode is one.
///
/// # Errors
///
/// Those of the system; out of memory.
pub fn words_of(rt: &(impl Env + AllocGlobal), alloc: Global) -> io::Result<Vec<String>> {
    let mut words = Vec::new(alloc);
    for word in env::args(rt)? {
        words.push(word)?;
    }
    Ok(words)
}
