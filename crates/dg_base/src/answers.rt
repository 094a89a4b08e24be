//! The answers of a command.
ghost use Rattle.std.specs.Prelude.{◌≡◌};

/// How a command ended.
#[derive(Clone, Copy, PartialEq, Eq, Debug)]
pub enum Status {
    /// The command did what it was asked.
    Done,
    /// Memory ran out.
    Memory,
    /// The command line is invalid.
    Usage,
    /// The input is outside its grammar.
    BadInput,
    /// A read of the input failed.
    ReadFault,
    /// A write of the output failed.
    WriteFault,
    /// A flash chip stopped.
    FlashFault,
    /// A flash chip holds no volume.
    NotAVolume,
    /// The command's own rules refuse it.
    Refused,
    /// The link between motes failed.
    LinkFault,
    /// The input is longer than 16,777,216 bytes.
    TooLong,
    /// The script has more than 1,000,000 events.
    TooMany,
    /// A flash chip that the command needs was not supplied.
    NoBoard,
    /// A start found no image that it may run.
    NoImage,
}

impl Status {
    ghost use Rattle.dg_base.specs.Status.{code_of};

    /// The exit status of the program, from 0 to 13.
    pub fn code(&self) -> u8
        ensures { result ≡ code_of self.now }
    {
        *self as u8
    }
}
