//! The sentences: what happened, with the value that it goes by, and after a semicolon what to do.
ghost use Rattle.std.specs.Prelude.{◌≡◌, ◌++◌, OnOk};
ghost use Rattle.dg_messages.specs.Sentences.{sentence_of, hex_sentence, script_sentence, profile_sentence, file_sentence};
ghost use Rattle.dg_messages.specs.Sentences.{refusal_sentence, link_sentence, input_sentence, output_sentence};
ghost use Rattle.dg_messages.specs.declared.causes.Told.TheVariants as told;
ghost use Rattle.dg_messages.specs.Sentences.{misuse_sentence, nodes_sentence, file_value, refusal_value, link_value};

use crate::causes::{Misuse, Refused, Told};
use crate::tables::{
    file_after, file_before, hex_after, hex_before, in_memory_sentence, input_sentence, link_after,
    link_before, nodes_after, nodes_before, output_sentence, profile_sentence, refusal_after,
    refusal_before, root_line_sentence, script_after, script_before,
};
use crate::text::{
    push, push_decimal, push_number, push_part, push_two, push_two_words, push_word,
};
use dg_drip_script::DripFault;
use dg_ihex::HexCause;
use dg_net::LinkCause;
use dg_nor::FileFault;
use dg_script::LineFault;
use std::alloc::{AllocError, Global};

/// Appends the sentence of a cause of a HEX file, in this line.
fn push_hex(alloc: Global, text: &mut Vec<u8>, cause: HexCause, line: u32) -> Result<(), AllocError>
    ensures { OnOk result (text.new.items ≡ text.old.items ++ hex_sentence cause line) }
{
    push_number(
        alloc,
        text,
        hex_before(cause),
        u64::from(line),
        hex_after(cause),
    )
}

/// Appends the sentence of a cause of a script, in this line.
fn push_script(
    alloc: Global,
    text: &mut Vec<u8>,
    cause: LineFault,
    line: u32,
) -> Result<(), AllocError>
    ensures { OnOk result (text.new.items ≡ text.old.items ++ script_sentence cause line) }
{
    push_number(
        alloc,
        text,
        script_before(cause),
        u64::from(line),
        script_after(cause),
    )
}

/// Appends the sentence of a cause of a script of nodes, in this line.
fn push_nodes(
    alloc: Global,
    text: &mut Vec<u8>,
    cause: DripFault,
    line: u32,
) -> Result<(), AllocError>
    ensures { OnOk result (text.new.items ≡ text.old.items ++ nodes_sentence cause line) }
{
    push_number(
        alloc,
        text,
        nodes_before(cause),
        u64::from(line),
        nodes_after(cause),
    )
}

/// Appends the value of a cause of the file of a chip.
fn push_file_value(alloc: Global, text: &mut Vec<u8>, cause: FileFault) -> Result<(), AllocError>
    ensures { OnOk result (text.new.items ≡ text.old.items ++ file_value cause) }
{
    match cause {
        FileFault::Missing => Ok(()),
        FileFault::Denied => Ok(()),
        FileFault::NoFile => Ok(()),
        FileFault::Unopened => Ok(()),
        FileFault::InUse => Ok(()),
        FileFault::Length(length) => push_decimal(alloc, text, length),
        FileFault::Unread => Ok(()),
        FileFault::Full(at) => push_decimal(alloc, text, u64::from(at)),
        FileFault::Unwritten(at) => push_decimal(alloc, text, u64::from(at)),
    }
}

/// Appends the sentence of a cause of the file of a chip.
fn push_file(alloc: Global, text: &mut Vec<u8>, cause: FileFault) -> Result<(), AllocError>
    ensures { OnOk result (text.new.items ≡ text.old.items ++ file_sentence cause) }
{
    push(text, file_before(cause))?;
    push_file_value(alloc, text, cause)?;
    push(text, file_after(cause))
}

/// Appends the value of a cause of a command that is refused.
fn push_refusal_value(alloc: Global, text: &mut Vec<u8>, cause: Refused) -> Result<(), AllocError>
    ensures { OnOk result (text.new.items ≡ text.old.items ++ refusal_value cause) }
{
    match cause {
        Refused::Empty => Ok(()),
        Refused::TooLarge { length } => push_decimal(alloc, text, u64::from(length)),
        Refused::Reserved => Ok(()),
        Refused::Stale { version } => push_decimal(alloc, text, u64::from(version)),
        Refused::Taken => Ok(()),
        Refused::Worn { room } => push_decimal(alloc, text, u64::from(room)),
        Refused::OldOrder { number } => push_decimal(alloc, text, u64::from(number)),
        Refused::Absent => Ok(()),
        Refused::NotWhole { done, pages } => push_part(
            alloc,
            text,
            u64::from(done),
            u64::from(pages),
        ),
        Refused::Broken { page } => push_decimal(alloc, text, u64::from(page)),
        Refused::Shape => Ok(()),
        Refused::Foreign { page } => push_decimal(alloc, text, u64::from(page)),
    }
}

/// Appends the sentence of a cause of a command that is refused.
fn push_refusal(alloc: Global, text: &mut Vec<u8>, cause: Refused) -> Result<(), AllocError>
    ensures { OnOk result (text.new.items ≡ text.old.items ++ refusal_sentence cause) }
{
    push(text, refusal_before(cause))?;
    push_refusal_value(alloc, text, cause)?;
    push(text, refusal_after(cause))
}

/// Appends the value of a cause of a link between motes.
fn push_link_value(alloc: Global, text: &mut Vec<u8>, cause: LinkCause) -> Result<(), AllocError>
    ensures { OnOk result (text.new.items ≡ text.old.items ++ link_value cause) }
{
    match cause {
        LinkCause::PortInUse { port } => push_decimal(alloc, text, u64::from(port)),
        LinkCause::PortDenied { port } => push_decimal(alloc, text, u64::from(port)),
        LinkCause::PortFailed { port } => push_decimal(alloc, text, u64::from(port)),
        LinkCause::Send { port } => push_decimal(alloc, text, u64::from(port)),
        LinkCause::Receive { port } => push_decimal(alloc, text, u64::from(port)),
    }
}

/// Appends the sentence of a cause of a link between motes.
fn push_link(alloc: Global, text: &mut Vec<u8>, cause: LinkCause) -> Result<(), AllocError>
    ensures { OnOk result (text.new.items ≡ text.old.items ++ link_sentence cause) }
{
    push(text, link_before(cause))?;
    push_link_value(alloc, text, cause)?;
    push(text, link_after(cause))
}

/// Appends the sentence of an invalid command line.
fn push_misuse(text: &mut Vec<u8>, cause: Misuse<'_>) -> Result<(), AllocError>
    ensures { OnOk result (text.new.items ≡ text.old.items ++ misuse_sentence cause.entry) }
{
    match cause {
        Misuse::NoWord => push(
            text,
            "no command is given; deluge --help tells which there are",
        ),
        Misuse::NoCommand { word } => push_word(
            text,
            "no command has the name ",
            word,
            "; deluge --help tells which there are",
        ),
        Misuse::NotText => push(
            text,
            "a word is not UTF-8, so none of a command; rename the file",
        ),
        Misuse::Words { what, verb } => push_two_words(
            text,
            "the words are no command: ",
            what,
            "; deluge ",
            verb,
            " --help tells which are",
        ),
    }
}

/// Appends the sentence of too few chips.
fn push_no_board(alloc: Global, text: &mut Vec<u8>, need: u32, have: u32) -> Result<(), AllocError>
    ensures { OnOk result (text.new.items ≡ text.old.items ++ sentence_of (told.NoBoard need have)) }
{
    let numbers = (u64::from(need), u64::from(have));
    push_two(
        alloc,
        text,
        "the motes are more than the chips: ",
        numbers,
        " motes, ",
        " chips; name as many chips as motes",
    )
}

/// Appends the sentence of a cause.
pub fn push_sentence(alloc: Global, text: &mut Vec<u8>, told: &Told<'_>) -> Result<(), AllocError>
    ensures { OnOk result (text.new.items ≡ text.old.items ++ sentence_of told.now) }
{
    match *told {
        Told::Memory => push(text, "memory ran out; give the program more of it"),
        Told::Misused(cause) => push_misuse(text, cause),
        Told::Hex { cause, line } => push_hex(alloc, text, cause, line),
        Told::RootLine => push(text, root_line_sentence()),
        Told::Nodes { cause, line } => push_nodes(alloc, text, cause, line),
        Told::Script { cause, line } => push_script(alloc, text, cause, line),
        Told::Profile(cause) => push(text, profile_sentence(cause)),
        Told::Input(cause) => push(text, input_sentence(cause)),
        Told::Output(cause) => push(text, output_sentence(cause)),
        Told::File(cause) => push_file(alloc, text, cause),
        Told::NamedTwice => push(text, "it is named twice; name each chip once"),
        Told::Stopped => push(text, "the chip stopped; look at it by deluge ping"),
        Told::NotAVolume => push(
            text,
            "it is no volume; name another file, or format it, which empties it",
        ),
        Told::InMemory => push(text, in_memory_sentence()),
        Told::Refused(cause) => push_refusal(alloc, text, cause),
        Told::Link(cause) => push_link(alloc, text, cause),
        Told::NoLink => push(text, "the link failed; look at the network of this machine"),
        Told::TooLong => push(text, "the input has more than 16777216 bytes; part it"),
        Told::TooMany => push(text, "the script has more than 1000000 events; part it"),
        Told::NoBoard { need, have } => push_no_board(alloc, text, need, have),
        Told::NoImage => push(
            text,
            "golden is damaged, and nothing else can start; take a copy, or format it",
        ),
        Told::Other { status } => push_number(
            alloc,
            text,
            "the command ended with status ",
            u64::from(status.code()),
            "; docs/COMMANDS.md tells what it means",
        ),
    }
}
