//! The message for a command that ended.
ghost use Rattle.std.specs.Prelude.{◌≡◌, true, None, Some, IfSome};
ghost use Rattle.dg_base.specs.declared.answers.Status.TheVariants as statuses;
ghost use Rattle.dg_messages.specs.LastLines.{has_last_line, last_line_told};
ghost use Rattle.dg_messages.specs.Saying.{status_told};

use crate::causes::{InputFault, Misuse, OutputFault, Reads, Told};
use crate::last_lines::{bad_input, no_board, refused};
use dg_base::Status;
use dg_net::LinkCause;
use dg_nor::FileFault;

/// What is known of a command that ended, besides its status and its last line.
#[derive(Clone, Copy, Debug)]
pub struct Causes<'a> {
    /// What is wrong with the words, if something is.
    pub misuse: Misuse<'a>,
    /// What it reads from standard input.
    pub reads: Reads,
    /// The chips are kept in memory.
    pub in_memory: bool,
    /// Why the file of a chip is gone, if one is.
    pub file: Option<FileFault>,
    /// That file is named before, by the same name or by another one.
    pub named_twice: bool,
    pub input: InputFault,
    pub output: OutputFault,
    pub link: Option<LinkCause>,
}

/// The cause for an operator of a command with this status and this last line, without its LF. None where the command did
/// what it was asked.
pub fn told<'a>(status: Status, last: &[u8], causes: &Causes<'a>) -> Option<Told<'a>>
    // it is a cause of that status
    ensures status { IfSome result (λ cause. status_told cause ≡ status) }
    ensures none { result ≡ None → status ≡ statuses.Done }
    // where the last line has the cause, it is what is read of that
    ensures read { has_last_line status ≡ true
        → result ≡ Some (last_line_told status causes.now.reads causes.now.in_memory last.now) }
{
    match status {
        Status::Done => None,
        Status::Memory => Some(Told::Memory),
        Status::Usage => Some(Told::Misused(causes.misuse)),
        Status::BadInput => Some(bad_input(causes.reads, last)),
        Status::ReadFault => Some(Told::Input(causes.input)),
        Status::WriteFault => Some(Told::Output(causes.output)),
        Status::FlashFault => Some(flash_fault(causes.file, causes.named_twice)),
        Status::NotAVolume if causes.in_memory => Some(Told::InMemory),
        Status::NotAVolume => Some(Told::NotAVolume),
        Status::Refused => Some(refused(last)),
        Status::LinkFault => Some(link_fault(causes.link)),
        Status::TooLong => Some(Told::TooLong),
        Status::TooMany => Some(Told::TooMany),
        Status::NoBoard => Some(no_board(last)),
        Status::NoImage => Some(Told::NoImage),
    }
}

fn flash_fault<'a>(file: Option<FileFault>, named_twice: bool) -> Told<'a>
    ensures { status_told result ≡ statuses.FlashFault }
{
    match file {
        Some(FileFault::InUse) if named_twice => Told::NamedTwice,
        Some(fault) => Told::File(fault),
        None => Told::Stopped,
    }
}

fn link_fault<'a>(link: Option<LinkCause>) -> Told<'a>
    ensures { status_told result ≡ statuses.LinkFault }
{
    match link {
        Some(cause) => Told::Link(cause),
        None => Told::NoLink,
    }
}
