//! What is written to standard error before a command begins.
use crate::opening::{begin_with, begin_with_format};
use crate::showing::shown_word;
use dg_command::{Asked, asked};
use dg_nor::Board;
use dg_volume::Volume;
use std::alloc::AllocError;
use std::io::IsTerminal;

/// The commands that read standard input, and what they read.
const READERS: [(&str, &str); 8] = [
    ("replay", "a script"),
    ("serve", "a network profile"),
    ("format", "golden as Intel HEX"),
    ("inject", "an image as Intel HEX"),
    ("wrap", "a payload as Intel HEX"),
    ("receive", "a wrapped image as Intel HEX"),
    ("drip", "a script of nodes"),
    ("base", "frames and ticks"),
];

/// What ends the input at a terminal. A line of frames is raw, so that Ctrl-D is a byte like any other there.
fn end_of_input<'a>(verb: &str) -> &'a str {
    match verb {
        "base" => "Ctrl-C",
        _ => "Ctrl-D",
    }
}

/// Reports what is waited for, if standard input is a terminal and the command reads it.
pub(crate) fn note_waiting(rt: &HostRuntime, words: &Vec<String>) {
    if !rt.stdin().is_terminal() || !are_a_command(rt, words) {
        return;
    }
    for (verb, what) in READERS {
        if begin_with(words, verb) {
            let end = end_of_input(verb);
            let _ = eprintln!(rt;
                "deluge: {verb}: reading {what} from standard input; end it with {end}"
            );
        }
    }
}

/// Whether words are a command, and ask neither for help nor for the version.
fn are_a_command(rt: &HostRuntime, words: &Vec<String>) -> bool {
    matches!(asked(rt.alloc(), words), Ok(Asked::Command(_)))
}

/// Reports what a chip that is about to be formatted keeps.
pub(crate) fn note_volume(
    rt: &HostRuntime,
    words: &[String],
    names: &[String],
    boards: &mut Vec<Board>,
) {
    if !begin_with_format(words) {
        return;
    }
    if let (Some(name), Some(board)) = (names.first(), boards.first_mut()) {
        if board.file_fault().is_none() {
            let _ = tell_volume(rt, name.as_str(), board);
        }
    }
}

/// Reports the images and the room of a volume, if the chip is one.
fn tell_volume(rt: &HostRuntime, name: &str, board: &mut Board) -> Result<(), AllocError> {
    let Ok(volume) = Volume::mount(board) else {
        return Ok(());
    };
    let mut images = String::from_str(rt.alloc(), "golden")?;
    for image in 1..7 {
        if let Some(kept) = volume.kept(image) {
            let version = kept.version;
            let one = format!(in rt.alloc(); ", image {image} version {version}")?;
            images.push_str(one.as_str())?;
        }
    }
    let name = shown_word(rt, name)?;
    let room = volume.room();
    let _ = eprintln!(rt;
        "deluge: format: {name}: it is a volume, and a good HEX file empties it: {images}; room {room}"
    );
    Ok(())
}
