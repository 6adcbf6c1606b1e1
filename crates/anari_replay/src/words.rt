//! The words that the program was started with.
use crate::fault::Fault;
use std::env;
use std::io::ErrorKind;
use std::rt::Env;

/// The words that the program was started with.
///
/// # Errors
/// `Words` where one is not UTF-8, and `Memory`.
pub fn program_words<R: Env + AllocGlobal>(rt: &R) -> Result<Vec<String>, Fault> {
    let words = match env::args(rt) {
        Ok(words) => words,
        Err(error) if error.kind() == ErrorKind::OutOfMemory => return Err(Fault::Memory),
        Err(_) => return Err(Fault::Words),
    };
    let mut after_name = Vec::new(rt.alloc());
    for word in words.skip(1) {
        after_name.push(word)?;
    }
    Ok(after_name)
}
