//! How faults are displayed.
use crate::checking::ChainFault;
use crate::wrapping::WrapFault;
use std::error::Error;
use std::fmt;

impl fmt::Display for WrapFault {
    ghost use Rattle.std.specs.Prelude.{Some};
    ghost use Rattle.dg_chain.specs.Texts.{wrap_fault_text};

    ghost output = { λ fault. Some (wrap_fault_text fault) };

    fn fmt<W: fmt::Write>(&self, f: &mut fmt::Formatter<W>) -> fmt::Result {
        match self {
            WrapFault::Memory => f.write_str("out of memory"),
            WrapFault::Empty => f.write_str("the payload is empty"),
            WrapFault::TooLarge { length } => {
                write!(f, "the payload is too large: it has {length} bytes")
            }
        }
    }
}

impl fmt::Display for ChainFault {
    ghost use Rattle.std.specs.Prelude.{Some};
    ghost use Rattle.dg_chain.specs.Texts.{chain_fault_text};

    ghost output = { λ fault. Some (chain_fault_text fault) };

    fn fmt<W: fmt::Write>(&self, f: &mut fmt::Formatter<W>) -> fmt::Result {
        match self {
            ChainFault::Stopped => f.write_str("the flash chip is stopped"),
            ChainFault::Broken { page, .. } => {
                write!(f, "page {page} is not the one that is named before it")
            }
            ChainFault::Shape => f.write_str("the pages are not those of a payload"),
        }
    }
}

impl Error for WrapFault {}

impl Error for ChainFault {}
