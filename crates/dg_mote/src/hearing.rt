//! What a mote does when it hears a frame.
ghost use Rattle.std.specs.Prelude.{◌≡◌, ℕ, ◌<◌, ◌^◌, true, List, IfOk, OnOk, OnErr, IfSome, IfNone};
ghost use Rattle.dg_frame.specs.Grammar.{in_range};
ghost use Rattle.dg_frame.specs.Ranges.{IsInRange};
ghost use Rattle.dg_frame.specs.Spelling.{frame_of};
ghost use Rattle.dg_object.specs.Object.{Row};
ghost use Rattle.dg_volume.specs.Store.{Store};
ghost use Rattle.dg_volume.specs.Acts.{Stops};
ghost use Rattle.dg_mote.specs.Model.{MoteState};
ghost use Rattle.dg_mote.specs.Hears.{source_of, on_message, heard_of};
ghost use Rattle.dg_mote.specs.Timely.{Timely};
ghost use Rattle.dg_mote.specs.Motes.{IsMote, Done};
ghost use Rattle.dg_mote.specs.Consistency.{ChipIsConsistent, MoteIsConsistent};
ghost use Rattle.dg_mote.specs.Hearing.{ChipStays, StaysIf};

use crate::laws::a_mote_keeps_consistency;
use crate::requests::PageName;
use crate::{Heard, Mote};
use dg_frame::{Message, one_reading, read, refusal};
use dg_nor::{Nor, Stopped};

impl Mote {
    /// Hears the bytes of a frame at the time `now`, in milliseconds, with a `word` for random choices. The answer says what the
    /// mote did. Bytes that are not a frame, and the mote's own frames, change nothing.
    ///
    /// A mote that maintains keeps a better order, asks the sender of an advert for the next page of what it lacks, and begins
    /// to serve a page that it is asked for. A mote that receives a page programs each missing packet into flash, and seals the
    /// page after the last one. Requests and packets that others exchange keep it from asking for a while. These are the rules
    /// of Deluge (Hui and Culler, SenSys 2004).
    ///
    /// After `Stopped` the mote must not be used again: its board is restarted.
    pub fn hear<N: Nor>(
        &mut self,
        nor: &mut N,
        now: u64,
        word: u32,
        bytes: &[u8],
    ) -> Result<Heard, Stopped>
        requires mote { (m : MoteState) × (s : Store) × IsMote (N.device nor.old).image self.old m s × Timely m now }
        requires moment { now < 2 ^ 62 }
        ensures done { IfOk result (λ heard. (m : MoteState) (s : Store) → IsMote (N.device nor.old).image self.old m s
            → Done (heard_of m s now word bytes.now) (N.device nor.old) (N.device nor.new) self.new heard) }
        // a frame that is refused or dropped changes nothing
        ensures unchanged { IfOk result (λ heard. StaysIf heard ((N.device nor.new ≡ N.device nor.old) × (self.new ≡ self.old))) }
        ensures same_reference { (N.device nor.new).references ≡ (N.device nor.old).references }
        ensures stopped { OnErr result ((m : MoteState) (s : Store) → IsMote (N.device nor.old).image self.old m s
            → Stops (heard_of m s now word bytes.now).trail (N.device nor.old) (N.device nor.new)) }
        // whatever is heard, a consistent chip stays consistent, also if it stops
        ensures consistent { OnOk result ((golden : Row) → MoteIsConsistent golden (N.device nor.old).image self.old
            → MoteIsConsistent golden (N.device nor.new).image self.new) }
        ensures stops_consistent { OnErr result ((golden : Row) → MoteIsConsistent golden (N.device nor.old).image self.old
            → ChipIsConsistent golden (N.device nor.new).image) }
    {
        one_reading();
        match read(bytes, self.wide) {
            Err(fault) => Ok(Heard::Refused(fault)),
            Ok(message) => self.hear_sent(nor, now, word, &message),
        }
    }

    /// Hears the frame of a message: does what [`Mote::hear`] does with the bytes of that frame, without making them. The fields
    /// of the message are in the ranges of a wide reader. It is for a world that keeps sent frames as messages.
    #[inline(always)]
    pub fn hear_sent<N: Nor>(
        &mut self,
        nor: &mut N,
        now: u64,
        word: u32,
        message: &Message,
    ) -> Result<Heard, Stopped>
        requires mote { (m : MoteState) × (s : Store) × IsMote (N.device nor.old).image self.old m s × Timely m now }
        requires moment { now < 2 ^ 62 }
        requires range { in_range true message.now ≡ true }
        ensures done { IfOk result (λ heard. (m : MoteState) (s : Store) → IsMote (N.device nor.old).image self.old m s
            → Done (heard_of m s now word (frame_of message.now)) (N.device nor.old) (N.device nor.new) self.new heard) }
        ensures unchanged { IfOk result (λ heard. StaysIf heard ((N.device nor.new ≡ N.device nor.old) × (self.new ≡ self.old))) }
        ensures same_reference { (N.device nor.new).references ≡ (N.device nor.old).references }
        ensures stopped { OnErr result ((m : MoteState) (s : Store) → IsMote (N.device nor.old).image self.old m s
            → Stops (heard_of m s now word (frame_of message.now)).trail (N.device nor.old) (N.device nor.new)) }
        ensures consistent { OnOk result ((golden : Row) → MoteIsConsistent golden (N.device nor.old).image self.old
            → MoteIsConsistent golden (N.device nor.new).image self.new) }
        ensures stops_consistent { OnErr result ((golden : Row) → MoteIsConsistent golden (N.device nor.old).image self.old
            → ChipIsConsistent golden (N.device nor.new).image) }
    {
        a_mote_keeps_consistency();
        if let Some(heard) = self.unheard(message) {
            return Ok(heard);
        }
        match message {
            Message::Advert {
                source,
                entries,
                order,
            } => self.hear_advert(nor, now, word, *source, entries, order),
            Message::Wide {
                source,
                entries,
                order,
            } => self.hear_advert(nor, now, word, *source, entries, order),
            Message::Request {
                to,
                image,
                version,
                page,
                want,
                ..
            } => {
                let name = PageName::new(*image, *version, *page);
                Ok(self.hear_request(now, *to, name, *want))
            }
            Message::Packet {
                image,
                version,
                page,
                packet,
                bytes,
                ..
            } => {
                let name = PageName::new(*image, *version, *page);
                self.hear_packet(nor, now, word, name, *packet, bytes)
            }
        }
    }

    /// The answer to a frame that the mote does not hear: one that it refuses, and its own.
    #[inline(always)]
    fn unheard(&self, message: &Message) -> Option<Heard>
        requires { in_range true message.now ≡ true }
        ensures heard { IfNone result ((m : MoteState) (s : Store) (now word : ℕ) → m.id ≡ self.now.id → m.wide ≡ self.now.wide
            → heard_of m s now word (frame_of message.now) ≡ on_message m s now word message.now) }
        ensures range { IfNone result (IsInRange self.now.wide message.now) }
        ensures unheard { IfSome result (λ heard. (c : List ℕ) (m : MoteState) (s : Store) (now word : ℕ) → IsMote c self.now m s
            → ChipStays (heard_of m s now word (frame_of message.now)) c s self.now heard) }
    {
        if let Some(fault) = refusal(message, self.wide) {
            return Some(Heard::Refused(fault));
        }
        if source(message) == self.id {
            return Some(Heard::Dropped);
        }
        None
    }
}

/// The mote that sends a message.
fn source(message: &Message) -> u16
    ensures { result ≡ source_of message.now }
{
    match message {
        Message::Advert { source, .. }
        | Message::Request { source, .. }
        | Message::Packet { source, .. }
        | Message::Wide { source, .. } => *source,
    }
}
