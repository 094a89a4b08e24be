//! The kinds of frames, as the rows of a table.
ghost use Rattle.std.specs.Prelude.{◌≡◌};
ghost use Rattle.std.specs.Option.{option_map};
ghost use Rattle.dg_frame.specs.Grammar.{kind_of};
ghost use Rattle.dg_frame.specs.Kinds.{kind_number, kind_row};

/// The bytes of each kind of frame.
pub(crate) const ADVERT_BYTES: usize = 38;

pub(crate) const REQUEST_BYTES: usize = 19;

pub(crate) const PACKET_FRAME_BYTES: usize = 35;

pub(crate) const WIDE_BYTES: usize = 62;

/// The kind of a frame, and its first byte.
#[derive(Clone, Copy, Debug, PartialEq, Eq)]
pub(crate) enum Kind {
    Advert = 1,
    Request = 2,
    Packet = 3,
    Wide = 4,
}

impl Kind {
    /// The kind with this number, for a wide or narrow reader.
    pub(crate) fn of(number: u8, wide: bool) -> Option<Kind>
        ensures { option_map kind_row result ≡ kind_of wide number }
    {
        match number {
            1 => Some(Kind::Advert),
            2 => Some(Kind::Request),
            3 => Some(Kind::Packet),
            4 if wide => Some(Kind::Wide),
            _ => None,
        }
    }

    /// The first byte of its frames.
    pub(crate) fn number(self) -> u8
        ensures { result ≡ kind_number self }
    {
        self as u8
    }

    /// The bytes of its frames.
    pub(crate) fn size(self) -> usize
        ensures { result ≡ (kind_row self).0 }
    {
        match self {
            Kind::Advert => ADVERT_BYTES,
            Kind::Request => REQUEST_BYTES,
            Kind::Packet => PACKET_FRAME_BYTES,
            Kind::Wide => WIDE_BYTES,
        }
    }
}
