//! What is written to standard error.
use dg_base::Status;
use dg_messages::{Causes, Input, Misuse, Output, Reads, Told, push_sentence, told};
use dg_net::LinkCause;
use dg_nor::{Board, FileFault};
use std::alloc::AllocError;
use std::io::{IsTerminal, Read, Write};

/// The last line if the number of motes is invalid, or not above that of the mote.
const NO_MOTE: &[u8] = b"profile id";

/// What is known of a service that ended, besides its status and what its input and output keep.
#[derive(Clone, Copy, Debug)]
pub(crate) struct Ended<'a> {
    pub(crate) status: Status,
    /// The number of the mote.
    pub(crate) id: u8,
    /// The file of the chip.
    pub(crate) chip: &'a str,
    /// Why that file is gone, if it is.
    pub(crate) file: Option<FileFault>,
    pub(crate) link: Option<LinkCause>,
}

/// Reports what the clock counts, if that is not the time that passes.
pub(crate) fn tell_scale(rt: &HostRuntime, scale: u64) {
    if scale > 1 {
        let _ = eprintln!(rt;
            "deluge_node: a millisecond of the clock counts as {scale} of the rules"
        );
    }
}

/// Reports what is waited for, if standard input is a terminal.
pub(crate) fn tell_waiting(rt: &HostRuntime) {
    if rt.stdin().is_terminal() {
        let _ = rt.eprintln(
            "deluge_node: reading a network profile from standard input; end it with Ctrl-D",
        );
    }
}

/// Reports that the file of an older chip was lengthened.
pub(crate) fn tell_lengthened(rt: &HostRuntime, chip: &str, before: u64, after: u32) {
    let _ = eprintln!(rt;
        "deluge_node: {chip}: it had {before} bytes, and was lengthened to {after} with 0xFF"
    );
}

/// Reports why a service ended before its turns were over, if it did.
pub(crate) fn tell_ended<R: Read, W: Write>(
    rt: &HostRuntime,
    ended: &Ended<'_>,
    input: &Input<R>,
    out: &Output<W>,
) {
    if out.last_line() == NO_MOTE {
        let id = ended.id;
        let _ = eprintln!(rt;
            "deluge_node: the profile has no mote {id}, or its motes are not from 1 to 16; compare them with --id"
        );
        return;
    }
    let causes = Causes {
        misuse: Misuse::NoWord,
        reads: Reads::Other,
        in_memory: false,
        file: ended.file,
        named_twice: false,
        input: input.fault(),
        output: out.fault(),
        link: ended.link,
    };
    if let Some(told) = told(ended.status, out.last_line(), &causes) {
        let _ = tell(rt, place_of(ended), &told);
    }
}

/// The file that a status is about, or nothing if it is about none.
fn place_of<'a>(ended: &Ended<'a>) -> &'a str {
    match ended.status {
        Status::FlashFault | Status::NotAVolume | Status::NoImage => ended.chip,
        _ => "",
    }
}

/// Reports a cause, and the file that it is about, if there is one.
pub(crate) fn tell(rt: &HostRuntime, place: &str, told: &Told<'_>) -> Result<(), AllocError> {
    let mut line = Vec::new(rt.alloc());
    push_sentence(rt.alloc(), &mut line, told)?;
    if let Ok(sentence) = str::from_utf8(&line) {
        let colon = if place.is_empty() { "" } else { ": " };
        let _ = eprintln!(rt; "deluge_node: {place}{colon}{sentence}");
    }
    Ok(())
}
