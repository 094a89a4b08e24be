//! The words of the sentences, before and after the value that each goes by.
ghost use Rattle.std.specs.Prelude.{◌≡◌};
ghost use Rattle.dg_messages.specs.Sentences.{hex_before, hex_after, script_before, script_after, file_before, file_after};
ghost use Rattle.dg_messages.specs.Sentences.{refusal_before, refusal_after, link_before, link_after};
ghost use Rattle.dg_messages.specs.Sentences.{profile_sentence, input_sentence, output_sentence, nodes_before, nodes_after};
ghost use Rattle.dg_messages.specs.Sentences.{sentence_of};
ghost use Rattle.dg_messages.specs.declared.causes.Told.TheVariants as told;

use crate::causes::{InputFault, OutputFault, Refused};
use dg_drip_script::DripFault;
use dg_ihex::HexCause;
use dg_net::LinkCause;
use dg_netcfg::ProfileFault;
use dg_nor::FileFault;
use dg_script::LineFault;

/// The last version, and the last number of an order.
const LAST_NUMBER: u32 = u32::MAX;

/// The text before the value of a cause of a HEX file.
pub(crate) fn hex_before<'a>(cause: HexCause) -> &'a str
    ensures { result.now ≡ hex_before cause }
{
    match cause {
        HexCause::Start => "no colon begins the record of line ",
        HexCause::Hex => "a byte is no hex digit, or their number is odd, in line ",
        HexCause::Count => "a record is shorter or longer than its count says, in line ",
        HexCause::Check => "the sum of a record is not 0, in line ",
        HexCause::Kind => "a record has a type above 05, in line ",
        HexCause::Shape =>
            "a record has a count that its type does not allow, or passes address FFFF, in line ",
        HexCause::Overlap => "an address is given for the second time in line ",
        HexCause::Span => "the addresses span more than 1048576 bytes with line ",
        HexCause::End => "the end record is missing, or records stand behind it, at line ",
        HexCause::Memory => "memory ran out for the HEX file, at line ",
    }
}

/// The text after it.
pub(crate) fn hex_after<'a>(cause: HexCause) -> &'a str
    ensures { result.now ≡ hex_after cause }
{
    match cause {
        HexCause::Start => "; give Intel HEX, and no S-record, ELF or binary file",
        HexCause::Hex => "; take out what is no record, as spaces and comments",
        HexCause::Count => "; it was cut, or joined with the next",
        HexCause::Check => "; one of its bytes was changed",
        HexCause::Kind => "; this is another format than Intel HEX",
        HexCause::Shape => "; make the file anew",
        HexCause::Overlap => "; part the files that were joined",
        HexCause::Span => "; leave out fuses, EEPROM and option bytes (objcopy -R)",
        HexCause::End => "; the file was cut or joined, or is empty",
        HexCause::Memory => "; give the program more of it",
    }
}

/// The text before the value of a cause of a script.
pub(crate) fn script_before<'a>(cause: LineFault) -> &'a str
    ensures { result.now ≡ script_before cause }
{
    match cause {
        LineFault::Memory => "memory ran out for the script, at line ",
        LineFault::Verb => "the first word begins no line of a script, in line ",
        LineFault::Few => "a line has fewer fields than it needs: line ",
        LineFault::Many => "a line has more fields than it may have: line ",
        LineFault::Number => "a field is no number, or none of its range, in line ",
        LineFault::Mote => "a mote is none that there is, or the one before it, in line ",
        LineFault::Image => "an image is none of the range of images, in line ",
        LineFault::Version => "a version, or the number of an order, is 0 in line ",
        LineFault::Name => "a name is not of 1 to 16 letters, digits, _, - and ., in line ",
        LineFault::Content => "a content is none, or has a length that is not allowed, in line ",
        LineFault::Mask => "a mask is none, or has a length that is not allowed, in line ",
        LineFault::Place =>
            "a line may not stand where it does, or one is missing before it: line ",
        LineFault::Cut => "a cut has no event behind it, at line ",
        LineFault::Long => "a line has more than 300000 bytes: line ",
    }
}

/// The text after it.
pub(crate) fn script_after<'a>(cause: LineFault) -> &'a str
    ensures { result.now ≡ script_after cause }
{
    match cause {
        LineFault::Memory => "; give the program more of it",
        LineFault::Verb => "; docs/SCRIPTS.md tells which there are",
        LineFault::Few => "; docs/SCRIPTS.md tells which",
        LineFault::Many => "; docs/SCRIPTS.md tells which",
        LineFault::Number => "; docs/SCRIPTS.md tells the ranges",
        LineFault::Mote => "; motes are numbered from 0",
        LineFault::Image => "; a chip has images 0 to 6",
        LineFault::Version => "; the least one is 1",
        LineFault::Name => "; choose another one",
        LineFault::Content => "; docs/SCRIPTS.md tells which are",
        LineFault::Mask => "; it has 1 to 2048 bytes, as hex digits",
        LineFault::Place =>
            "; motes comes first, then golden or boards, then link and narrow, then events",
        LineFault::Cut => "; put the event there that it interrupts",
        LineFault::Long => "; declare shorter contents",
    }
}

/// The text before the value of a cause of a script of nodes.
pub(crate) fn nodes_before<'a>(cause: DripFault) -> &'a str
    ensures { result.now ≡ nodes_before cause }
{
    match cause {
        DripFault::Long => "a line of nodes has more than 300000 bytes: line ",
        DripFault::Verb =>
            "no line of a script of nodes begins so, or it has another number of fields: line ",
        DripFault::Place =>
            "a line of nodes may not stand where it does, or nodes is missing before it: line ",
        DripFault::Number =>
            "a number, a node or a key is none of its range, or a node is named twice, in line ",
    }
}

/// The text after it.
pub(crate) fn nodes_after<'a>(cause: DripFault) -> &'a str
    ensures { result.now ≡ nodes_after cause }
{
    match cause {
        DripFault::Long => "; make it shorter",
        DripFault::Verb => "; docs/SCRIPTS.md tells which there are",
        DripFault::Place => "; nodes comes first, then link, then events",
        DripFault::Number => "; docs/SCRIPTS.md tells the ranges",
    }
}

/// The text before the value of a cause of the file of a chip.
pub(crate) fn file_before<'a>(cause: FileFault) -> &'a str
    ensures { result.now ≡ file_before cause }
{
    match cause {
        FileFault::Missing =>
            "there is no such file or folder; deluge format makes a file in a folder that is there",
        FileFault::Denied =>
            "the system does not let it be read and written; look at its rights (ls -l)",
        FileFault::NoFile =>
            "it is a folder, or another thing that is no file; name the file of a chip",
        FileFault::Unopened => "it cannot be opened or made; look at its name and its folder",
        FileFault::InUse => "another program has it open as a chip; end that one first (fuser)",
        FileFault::Length(_) => "it has ",
        FileFault::Unread => "a read of it failed; look at the disk",
        FileFault::Full(_) => "the disk has no room for what was written from byte ",
        FileFault::Unwritten(_) => "a write failed that began at byte ",
    }
}

/// The text after it.
pub(crate) fn file_after<'a>(cause: FileFault) -> &'a str
    ensures { result.now ≡ file_after cause }
{
    match cause {
        FileFault::Missing => "",
        FileFault::Denied => "",
        FileFault::NoFile => "",
        FileFault::Unopened => "",
        FileFault::InUse => "",
        FileFault::Length(_) =>
            " bytes, and a chip has 1085440, or an older one 679936; name the file of a chip",
        FileFault::Unread => "",
        FileFault::Full(_) => " on; make room (df), and give the command again",
        FileFault::Unwritten(_) => "; look at the disk and its limits, and give the command again",
    }
}

/// The text before the value of a cause of a command that is refused.
pub(crate) fn refusal_before<'a>(cause: Refused) -> &'a str
    ensures { result.now ≡ refusal_before cause }
{
    match cause {
        Refused::Empty => "the image has no byte; give a HEX file that has data",
        Refused::TooLarge { .. } => "the image has as many bytes as ",
        Refused::Reserved =>
            "image 0 is golden, which format alone writes; give --image from 1 to 6",
        Refused::Stale { .. } => "version ",
        Refused::Taken =>
            "this version is kept with other bytes or another name; give the same file and name, a larger --ver or another image",
        Refused::Worn { .. } => "the commits of this chip are spent, all but ",
        Refused::OldOrder { .. } => "an order is kept already, with number ",
        Refused::Absent => "nothing is kept of this image; deluge ping tells which are kept",
        Refused::NotWhole { .. } => "the image is not whole: ",
        Refused::Broken { .. } => "the digest is not the one that is kept, at page ",
        Refused::Shape =>
            "the pages are not those of the length that the first one tells; do not trust the image",
        Refused::Foreign { .. } => "the file is none of this root from page ",
    }
}

/// The text after it.
pub(crate) fn refusal_after<'a>(cause: Refused) -> &'a str
    ensures { result.now ≡ refusal_after cause }
{
    match cause {
        Refused::Empty => "",
        Refused::TooLarge { .. } => ", and 70656 are the most (68604 for wrap); gaps count",
        Refused::Reserved => "",
        Refused::Stale {
            version: LAST_NUMBER,
        } => " is kept already, and no version is larger; take another image, or format the chip",
        Refused::Stale { .. } => " is kept already; give a larger --ver",
        Refused::Taken => "",
        Refused::Worn { .. } => "; take another chip",
        Refused::OldOrder {
            number: LAST_NUMBER,
        } => ", and no number is larger; format the chip",
        Refused::OldOrder { .. } => "; give a larger --number",
        Refused::Absent => "",
        Refused::NotWhole { .. } =>
            " pages are complete; let the mote go on, or give inject or receive again",
        Refused::Broken { .. } =>
            "; do not trust the image: compare the root, or bring a larger version",
        Refused::Shape => "",
        Refused::Foreign { .. } =>
            " on; give it with its own root, or another file with a larger --ver",
    }
}

/// The text before the value of a cause of a link between motes.
pub(crate) fn link_before<'a>(cause: LinkCause) -> &'a str
    ensures { result.now ≡ link_before cause }
{
    match cause {
        LinkCause::PortInUse { .. } => "a port is in use: port ",
        LinkCause::PortDenied { .. } => "a port is not allowed: port ",
        LinkCause::PortFailed { .. } => "a port cannot be had: port ",
        LinkCause::Send { .. } => "a send failed to port ",
        LinkCause::Receive { .. } => "a receive failed at port ",
    }
}

/// The text after it.
pub(crate) fn link_after<'a>(cause: LinkCause) -> &'a str
    ensures { result.now ≡ link_after cause }
{
    match cause {
        LinkCause::PortInUse { .. } =>
            "; end the program that has it (ss -lunp), or choose another port",
        LinkCause::PortDenied { .. } => "; choose another one",
        LinkCause::PortFailed { .. } => "; look at the network of this machine",
        LinkCause::Send { .. } => "; look at the network of this machine",
        LinkCause::Receive { .. } => "; look at the network of this machine",
    }
}

/// The sentence of a cause of the profile of a network.
pub(crate) fn profile_sentence<'a>(cause: ProfileFault) -> &'a str
    ensures { result.now ≡ profile_sentence cause }
{
    match cause {
        ProfileFault::NotToml => "the profile is no TOML; mend it, docs/COMMANDS.md shows one",
        ProfileFault::Key =>
            "the profile has not just the keys motes, port and links, each of its kind; mend it",
        ProfileFault::Id => "the motes of the profile are not from 1 to 16; mend the number",
        ProfileFault::Link =>
            "the links of the profile are not pairs of two motes that there are, each once; mend them",
        ProfileFault::Port =>
            "the port of the profile is not from 1024 to 65500; choose another one",
        ProfileFault::Memory => "the profile found no memory; give the program more of it",
    }
}

/// The sentence of a HEX file that `wrap` made and whose first line is not a record.
pub(crate) fn root_line_sentence<'a>() -> &'a str
    ensures { result.now ≡ sentence_of told.RootLine }
{
    "the first line is no record; where it is the root that wrap wrote, cut it off (tail -n +2), else give Intel HEX"
}

/// The sentence of chips that are kept in memory.
pub(crate) fn in_memory_sentence<'a>() -> &'a str
    ensures { result.now ≡ sentence_of told.InMemory }
{
    "no file of a chip is named, and chips in memory are no volumes; name their files"
}

/// The sentence of a cause of standard input.
pub(crate) fn input_sentence<'a>(cause: InputFault) -> &'a str
    ensures { result.now ≡ input_sentence cause }
{
    match cause {
        InputFault::NoStream =>
            "standard input is closed, or a folder; give the command a file or a pipe",
        InputFault::Failed =>
            "a read of standard input failed; see that the line or the pipe is still there",
    }
}

/// The sentence of a cause of standard output.
pub(crate) fn output_sentence<'a>(cause: OutputFault) -> &'a str
    ensures { result.now ≡ output_sentence cause }
{
    match cause {
        OutputFault::Full =>
            "the disk is full, so standard output was not written whole; make room (df)",
        OutputFault::NoReader =>
            "nobody reads standard output any more; see that the reader of the pipe goes on",
        OutputFault::Failed =>
            "standard output is closed, or a write of it failed; see where it goes",
    }
}
