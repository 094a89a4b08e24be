//! Packets that are heard: programmed into the page that the mote asks for, which is sealed when it is whole; or noted.
ghost use Rattle.std.specs.Prelude.{◌≡◌, ◌≢◌, ℕ, ◌<◌, ◌≤◌, ◌^◌, true, false, List, length, IfOk, OnOk};
ghost use Rattle.std.specs.Prelude.{OnErr};
ghost use Rattle.std.specs.FinSet as set;
ghost use Rattle.dg_trickle.specs.Timer.{Timer};
ghost use Rattle.dg_frame.specs.Sizes.{last_packet, known_images};
ghost use Rattle.dg_frame.specs.Ranges.{PageInRange};
ghost use Rattle.dg_slot.specs.Layout.{packets};
ghost use Rattle.dg_slot.specs.Kept.{Held};
ghost use Rattle.dg_slot.specs.Fits.{may_seal};
ghost use Rattle.dg_slot.specs.Jobs.{IsJob, Packets, page_from, outline_of_slot, slot_of, slot_in, got_of_job};
ghost use Rattle.dg_volume.specs.Store.{Store};
ghost use Rattle.dg_volume.specs.Stands.{is_lent, Mounted};
ghost use Rattle.dg_volume.specs.Acts.{Acted, Stops};
ghost use Rattle.dg_volume.specs.Trails.{sealing_trail};
ghost use Rattle.dg_mote.specs.Model.{MoteState, Maintain, Receive, Receiving};
ghost use Rattle.dg_mote.specs.Packets.{is_wanted, on_packet, page_packet};
ghost use Rattle.dg_mote.specs.Motes.{IsMote, Done};
ghost use Rattle.dg_mote.specs.Hearing.{ChipStays, StaysIf, Fills, is_sealed, PageIsWhole, page_ends};

use crate::requests::PageName;
use crate::{Heard, Mode, Mote};
use dg_nor::{Nor, Stopped};
use dg_object::{PACKET_SIZE, PACKETS};
use dg_slot::{OpenSlot, PageJob, Sealing};
use dg_trickle::Trickle;
use dg_volume::{Volume, a_lent_slot_is_filled, what_is_after_the_commits_does_not_count};
use std::mem;

impl Mote {
    /// A packet of a page was heard. If it is missing from the page that the mote asks for, it is programmed, which is 1
    /// operation. The last packet makes the page whole.
    #[inline(never)]
    pub(crate) fn hear_packet<N: Nor>(
        &mut self,
        nor: &mut N,
        now: u64,
        word: u32,
        name: PageName,
        packet: u8,
        bytes: &[u8; PACKET_SIZE],
    ) -> Result<Heard, Stopped>
        requires mote { (m : MoteState) × (s : Store) × IsMote (N.device nor.old).image self.old m s }
        requires moment { now < 2 ^ 62 }
        requires range { PageInRange (known_images self.old.wide) name.image name.version name.page }
        requires in_page { packet ≤ last_packet }
        ensures done { IfOk result (λ heard. (m : MoteState) (s : Store) → IsMote (N.device nor.old).image self.old m s
            → Done (on_packet m.mode m s now word (page_packet name.image name.version name.page packet bytes.now))
            (N.device nor.old) (N.device nor.new) self.new heard) }
        ensures unchanged { IfOk result (λ heard. StaysIf heard ((N.device nor.new ≡ N.device nor.old) × (self.new ≡ self.old))) }
        ensures same_reference { (N.device nor.new).references ≡ (N.device nor.old).references }
        ensures stopped { OnErr result ((m : MoteState) (s : Store) → IsMote (N.device nor.old).image self.old m s
            → Stops (on_packet m.mode m s now word (page_packet name.image name.version name.page packet bytes.now)).trail
            (N.device nor.old) (N.device nor.new)) }
    {
        what_is_after_the_commits_does_not_count();
        a_lent_slot_is_filled();
        match &mut self.mode {
            Mode::Maintain(_) => Ok(self.overhear_packet(now, name)),
            Mode::Receive {
                version,
                asking,
                job,
                ..
            } => {
                if !is_wanted(*version, job, name, packet) {
                    return Ok(Heard::Dropped);
                }
                job.put(nor, packet, bytes)?;
                asking.accept(now, packet);
                if usize::from(asking.got().count()) < PACKETS {
                    return Ok(Heard::Took { packet });
                }
                self.end_page(nor, now, word)
            }
            Mode::Transmit { .. } => Ok(Heard::Dropped),
        }
    }

    /// A page is sent to another mote. This is noted if the page would be of use here.
    fn overhear_packet(&mut self, now: u64, name: PageName) -> Heard
        requires { PageInRange (known_images self.old.wide) name.image name.version name.page }
        ensures rests { (c : List ℕ) (m : MoteState) (s : Store) (timer : Timer) (word packet : ℕ) (bytes : List ℕ)
            → IsMote c self.old m s
            → ChipStays (on_packet (Maintain timer) m s now word (page_packet name.image name.version name.page packet bytes))
            c s self.new result }
        ensures unchanged { StaysIf result (self.new ≡ self.old) }
    {
        if !self.concerns(name) {
            return Heard::Dropped;
        }
        self.windows.note_packet(now, name.image);
        Heard::Noted
    }

    /// Seals the page that is whole, and returns to maintaining.
    fn end_page<N: Nor>(&mut self, nor: &mut N, now: u64, word: u32) -> Result<Heard, Stopped>
        requires moment { now < 2 ^ 62 }
        requires whole { (m : MoteState) × (s : Store) × (r : Receiving) × (h : Held) × (ps : Packets)
            × PageIsWhole (N.device nor.old).image self.old m s r h ps }
        ensures done { IfOk result (λ heard. (m : MoteState) (s : Store) (r : Receiving) (h : Held) (ps : Packets)
            → PageIsWhole (N.device nor.old).image self.old m s r h ps
            → Done (page_ends m r h s now word (page_from ps)) (N.device nor.old) (N.device nor.new) self.new heard) }
        ensures not_dropped { IfOk result (λ heard. StaysIf heard ⊥) }
        ensures same_reference { (N.device nor.new).references ≡ (N.device nor.old).references }
        ensures stopped { OnErr result ((m : MoteState) (s : Store) (r : Receiving) (h : Held) (ps : Packets)
            → PageIsWhole (N.device nor.old).image self.old m s r h ps
            → Stops (page_ends m r h s now word (page_from ps)).trail (N.device nor.old) (N.device nor.new)) }
    {
        let maintain = Mode::Maintain(Trickle::new(now, word));
        // only a mote that receives fills a page
        let Mode::Receive { job, .. } = mem::replace(&mut self.mode, maintain) else {
            return Ok(Heard::Dropped);
        };
        let image = job.image();
        let page = job.page();
        if seal(nor, &mut self.volume, job)? {
            Ok(Heard::Sealed { image, page })
        } else {
            Ok(Heard::Bad { image, page })
        }
    }
}

/// Whether a packet is missing from the page that a job fills.
fn is_wanted(version: u32, job: &PageJob, name: PageName, packet: u8) -> bool
    requires { packet ≤ last_packet }
    ensures value { (c : List ℕ) (h : Held) (r : Receiving) → IsJob c job.now h r.packets
        → (outline_of_slot (slot_of job.now)).image ≡ r.image → version ≡ r.version → length h.complete ≡ r.page
        → result ≡ is_wanted r name.image name.version name.page packet }
    ensures missing { result ≡ true → set.contains (got_of_job job.now) packet ≡ false }
{
    job.image() == name.image
        && version == name.version
        && job.page() == name.page
        && !job.got().has(packet)
}

/// Seals a whole page if it fits, and returns the slot. The answer says whether the page fits.
fn seal<N: Nor>(nor: &mut N, volume: &mut Volume, job: PageJob) -> Result<bool, Stopped>
    requires whole { (q : ℕ) → q < packets → set.contains (got_of_job job) q ≡ true }
    requires lent { is_lent volume.old (outline_of_slot (slot_of job)).image ≡ true }
    ensures sealed { IfOk result (λ fits. (s : Store) (image : ℕ) (h : Held) (ps : Packets)
        → Mounted (N.device nor.old).image volume.old s → Fills (N.device nor.old).image s image job h ps
        → (fits ≡ may_seal image h (page_from ps))
        × Acted (sealing_trail s image h (page_from ps)) (N.device nor.old) (N.device nor.new) volume.new) }
    ensures back { OnOk result (is_lent volume.new (outline_of_slot (slot_of job)).image ≡ false) }
    ensures others { (i : ℕ) → i ≢ (outline_of_slot (slot_of job)).image → is_lent volume.new i ≡ is_lent volume.old i }
    ensures same_reference { (N.device nor.new).references ≡ (N.device nor.old).references }
    ensures stopped { OnErr result ((s : Store) (image : ℕ) (h : Held) (ps : Packets)
        → Mounted (N.device nor.old).image volume.old s → Fills (N.device nor.old).image s image job h ps
        → Stops (sealing_trail s image h (page_from ps)) (N.device nor.old) (N.device nor.new)) }
{
    a_lent_slot_is_filled();
    let (fits, slot) = opened(job.seal(nor)?);
    volume.put_back(slot);
    Ok(fits)
}

/// Whether a page was made complete, and the slot.
fn opened(sealing: Sealing) -> (bool, OpenSlot)
    ensures fits { result.0 ≡ is_sealed sealing }
    ensures slot { result.1 ≡ slot_in sealing }
{
    match sealing {
        Sealing::Sealed(slot) => (true, slot),
        Sealing::Bad { slot, .. } | Sealing::Unfit { slot } => (false, slot),
    }
}
