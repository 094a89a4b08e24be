//! The words that a program is given.
use std::env;
use std::env::Args;
use std::io::ErrorKind;

/// What is passed on in place of words of which one is not UTF-8. It is not a command.
pub(crate) const NOT_TEXT: &str = "\u{fffd}";

/// The words after the program's name. None where memory runs out.
pub(crate) fn words(rt: &HostRuntime) -> Option<Vec<String>> {
    match env::args(rt) {
        Ok(args) => after_name(rt, args),
        Err(error) if error.kind() == ErrorKind::InvalidData => no_command(rt),
        Err(_) => None,
    }
}

/// All words but the first.
fn after_name(rt: &HostRuntime, args: Args) -> Option<Vec<String>> {
    let mut words = Vec::new(rt.alloc());
    for word in args.skip(1) {
        words.push(word).ok()?;
    }
    Some(words)
}

/// An invalid command line.
fn no_command(rt: &HostRuntime) -> Option<Vec<String>> {
    let mut words = Vec::new(rt.alloc());
    let word = String::from_str(rt.alloc(), NOT_TEXT).ok()?;
    words.push(word).ok()?;
    Some(words)
}
