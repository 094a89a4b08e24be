//! The frame that a mote sends.
ghost use Rattle.std.specs.Prelude.{◌≡◌, true, IfSome};
ghost use Rattle.std.proofs.Props.{props};
ghost use Rattle.dg_frame.specs.Grammar.{in_range};

use dg_frame::{Frame, Message, is_read_back, write};
use std::mem::size_of;

/// The bytes that the value of an outbox takes in memory.
pub const OUTBOX_SIZE: usize = size_of::<Outbox>();

/// At most one frame. It is kept as its message, and its bytes are made on request: motes that hear it in the same memory
/// do not need them.
#[derive(Drop)]
pub struct Outbox {
    pub(crate) message: Option<Message>,
    ghost ranged: { IfSome message (λ m. in_range true m ≡ true) } by { Prim.hlevel props },
}

impl Outbox {
    ghost use Rattle.std.specs.Prelude.{◌≡◌, Bool, true, Some, None, IfSome, option_map};
    ghost use Rattle.dg_frame.specs.Spelling.{frame_of};
    ghost use Rattle.dg_mote.specs.Motes.{sent_in, IsRead};

    pub fn new() -> Outbox
        ensures { sent_in result ≡ None }
    {
        Outbox { message: None }
    }

    /// The frame, if there is one.
    pub fn frame(&self) -> Option<Frame>
        ensures { option_map (λ f. f.items) result ≡ sent_in self.now }
    {
        match &self.message {
            Some(message) => Some(write(message)),
            None => None,
        }
    }

    /// The message of the frame, if there is one.
    pub fn message(&self) -> Option<&Message>
        ensures value { option_map (λ m. frame_of m.now) result ≡ sent_in self.now }
        ensures range { IfSome result (λ m. in_range true m.now ≡ true) }
    {
        self.message.as_ref()
    }

    /// Takes the frame out, if there is one.
    pub fn take(&mut self) -> Option<Frame>
        ensures taken { option_map (λ f. f.items) result ≡ sent_in self.old }
        ensures empty { sent_in self.new ≡ None }
    {
        let frame = self.frame();
        *self = Outbox::new();
        frame
    }

    /// Puts the frame of a message in.
    pub(crate) fn put(&mut self, message: &Message)
        requires { (wide : Bool) × (in_range wide message.now ≡ true) }
        ensures sent { sent_in self.new ≡ Some (frame_of message.now) }
        ensures read { (wide : Bool) → in_range wide message.now ≡ true → IsRead wide message.now }
    {
        is_read_back(message);
        *self = Outbox {
            message: Some(*message),
        };
    }
}
