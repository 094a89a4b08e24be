//! A frame that was sent.
ghost use Rattle.std.specs.Prelude.{◌≡◌, ◌<◌, true};
ghost use Rattle.dg_frame.specs.Grammar.{in_range};
ghost use Rattle.dg_rules.specs.Sizes.{most_motes};

use dg_frame::Message;

/// A frame that was sent, as its message, and by which mote. No mote of a world needs its bytes.
#[derive(Drop)]
pub struct SentFrame {
    // It is the first field, so that it is copied in one piece.
    pub message: Message,
    pub by: u8,
    ghost known: { by < most_motes },
    ghost ranged: { in_range true message ≡ true },
}
