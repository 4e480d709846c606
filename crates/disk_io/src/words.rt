//! The words of the command line.
use std::env;

/// The words behind the name of the program. It fails where memory is refused or a word is no text.
pub fn words_of(rt: &HostRuntime) -> std::io::Result<Vec<String>> {
    let mut words = Vec::new(rt.alloc());
    for word in env::args(rt)?.skip(1) {
        words.push(word)?;
    }
    Ok(words)
}
