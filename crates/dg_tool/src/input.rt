//! The image that the input of a verb spells.
ghost use Rattle.std.specs.Prelude.{◌≤◌};
ghost use Rattle.dg_outside.specs.Outside.{input_of};
ghost use Rattle.dg_tool.specs.Input.{ImageRead};

use dg_base::Source;
use dg_end::End;
use dg_ihex::{HexCause, HexFileFault, MOST_TEXT};
use dg_input::{ReadStop, read_input};
use std::alloc::Global;

/// Why an input gives no image.
#[derive(Clone, Copy, Debug, PartialEq, Eq)]
pub enum ImageFault {
    /// Memory ran out.
    Memory,
    /// A read failed.
    ReadFault,
    /// It has more than 16,777,216 bytes.
    TooLong,
    /// It is not a HEX file.
    BadHex(HexFileFault),
}

impl From<ReadStop> for ImageFault {
    ghost use Rattle.std.specs.Prelude.{◌≡◌};
    ghost use Rattle.dg_tool.specs.Input.{fault_of_read};

    ghost from_gives = { λ stop e. e ≡ fault_of_read stop };

    fn from(stop: ReadStop) -> ImageFault {
        match stop {
            ReadStop::Memory => ImageFault::Memory,
            ReadStop::ReadFault => ImageFault::ReadFault,
        }
    }
}

impl From<HexFileFault> for ImageFault {
    ghost use Rattle.std.specs.Prelude.{◌≡◌};
    ghost use Rattle.dg_tool.specs.Input.{fault_of_hex};

    ghost from_gives = { λ fault e. e ≡ fault_of_hex fault };

    fn from(fault: HexFileFault) -> ImageFault {
        match fault.cause {
            HexCause::Memory => ImageFault::Memory,
            _ => ImageFault::BadHex(fault),
        }
    }
}

impl From<ImageFault> for End {
    ghost use Rattle.std.specs.Prelude.{◌≡◌};
    ghost use Rattle.dg_tool.specs.Input.{end_of_image};

    ghost from_gives = { λ fault e. e ≡ end_of_image fault };

    fn from(fault: ImageFault) -> End {
        match fault {
            ImageFault::Memory => End::Memory,
            ImageFault::ReadFault => End::ReadFault,
            ImageFault::TooLong => End::TooLong,
            ImageFault::BadHex(fault) => End::BadHex(fault),
        }
    }
}

/// Reads the image of the HEX file that an input spells. At most 16,777,216 bytes are used, and a file that is too long is
/// refused whatever its lines are.
pub fn read_image<S: Source>(alloc: Global, input: &mut S) -> Result<Vec<u8>, ImageFault>
    ensures read { ImageRead (λ image. image.items) result (input_of (S.Source, input.old)) (input_of (S.Source, input.new)) }
    ensures counts { S.faults input.old ≤ S.faults input.new }
{
    let mut reader = read_input(alloc, input)?;
    if reader.count() > MOST_TEXT {
        return Err(ImageFault::TooLong);
    }
    let image = reader.finish(alloc)?;
    Ok(image)
}
