//! What a mote does as time passes.
ghost use Rattle.std.specs.Prelude.{◌≡◌, ℕ, ◌<◌, ◌≤◌, ◌^◌, false, None, Some, IfOk, IfSome, OnOk, OnErr, List, Option};
ghost use Rattle.std.specs.Prelude.{option_map};
ghost use Rattle.dg_nor.specs.Reads.{ReadEnds};
ghost use Rattle.dg_frame.specs.Spelling.{frame_of};
ghost use Rattle.dg_frame.specs.declared.Message.TheVariants as message;
ghost use Rattle.dg_slot.specs.Layout.{slots, most_pages, packets, page_sector};
ghost use Rattle.dg_slot.specs.Pages.{packet_in};
ghost use Rattle.dg_slot.specs.Kept.{Held};
ghost use Rattle.dg_slot.specs.Jobs.{IsJob, Packets, outline_of_slot, done_of_slot, slot_of};
ghost use Rattle.dg_object.specs.Object.{Row};
ghost use Rattle.dg_volume.specs.Store.{Store};
ghost use Rattle.dg_volume.specs.Stands.{Tells, Mounted, IsMounted, is_lent, room_of};
ghost use Rattle.dg_volume.specs.Acts.{Acted, Stops};
ghost use Rattle.dg_volume.specs.Start.{order_waits};
ghost use Rattle.dg_volume.specs.Trails.{clear_trail};
ghost use Rattle.dg_mote.specs.Model.{MoteState, Maintain};
ghost use Rattle.dg_mote.specs.Summary.{advert_of};
ghost use Rattle.dg_mote.specs.Ticks.{clears, maintain_tick, mode_tick, tick_of};
ghost use Rattle.dg_mote.specs.Timely.{Timely};
ghost use Rattle.dg_mote.specs.Motes.{IsMote, Done, sent_in, IsRead};
ghost use Rattle.dg_mote.specs.Consistency.{ChipIsConsistent, MoteIsConsistent};
ghost use Rattle.dg_mote.specs.Shows.{EndsInMode};

use crate::laws::a_mote_keeps_consistency;
use crate::summary::advert_message;
use crate::{Did, Mode, Mote, Outbox};
use dg_bits::PageBits;
use dg_boot::order_waits;
use dg_frame::Message;
use dg_nor::{Nor, Stopped};
use dg_object::{PACKET_SIZE, PACKETS};
use dg_recv::Ask;
use dg_send::Serve;
use dg_slot::{PageJob, read_packet};
use dg_trickle::{Act, Trickle};
use dg_volume::Volume;

/// How long a mote runs before it clears the count of short starts, in milliseconds.
pub(crate) const LONG_RUN: u64 = 5_000;

impl Mote {
    /// Does what is due now: the first of these actions that applies.
    ///
    /// After five seconds it clears the count of short starts. While it maintains, it answers `Restart` if an order is
    /// pending, and sends an advert when its timer says so (Trickle, RFC 6206). While it receives, it sends a request when
    /// one is due, and gives the page up after eight of them. While it transmits, it sends the lowest packet that is owed.
    /// A frame is put into the outbox exactly if the answer is `Sent`.
    #[inline(always)]
    pub fn tick<N: Nor>(
        &mut self,
        nor: &mut N,
        now: u64,
        word: u32,
        out: &mut Outbox,
    ) -> Result<Did, Stopped>
        requires mote { (m : MoteState) × (s : Store) × IsMote (N.device nor.old).image self.old m s × Timely m now }
        requires moment { now < 2 ^ 62 }
        requires empty { sent_in out.old ≡ None }
        ensures done { IfOk result (λ did. (m : MoteState) (s : Store) → IsMote (N.device nor.old).image self.old m s
            → Done (tick_of m s now word) (N.device nor.old) (N.device nor.new) self.new did) }
        ensures sent { OnOk result ((m : MoteState) (s : Store) → IsMote (N.device nor.old).image self.old m s
            → sent_in out.new ≡ option_map frame_of (tick_of m s now word).sent) }
        // a mote of the same width reads the frame that is sent as its message
        ensures read { OnOk result ((m : MoteState) (s : Store) → IsMote (N.device nor.old).image self.old m s
            → IfSome (tick_of m s now word).sent (IsRead m.wide)) }
        ensures same_reference { (N.device nor.new).references ≡ (N.device nor.old).references }
        ensures stopped { OnErr result ((m : MoteState) (s : Store) → IsMote (N.device nor.old).image self.old m s
            → Stops (tick_of m s now word).trail (N.device nor.old) (N.device nor.new)) }
        ensures nothing_sent { OnErr result (sent_in out.new ≡ None) }
        // whatever was heard before, a consistent chip stays consistent, also if it stops
        ensures consistent { OnOk result ((golden : Row) → MoteIsConsistent golden (N.device nor.old).image self.old
            → MoteIsConsistent golden (N.device nor.new).image self.new) }
        ensures stops_consistent { OnErr result ((golden : Row) → MoteIsConsistent golden (N.device nor.old).image self.old
            → ChipIsConsistent golden (N.device nor.new).image) }
    {
        a_mote_keeps_consistency();
        if self.clears(now) {
            clear_gesture(&mut self.volume, nor)?;
            return Ok(Did::Idle);
        }
        self.tick_mode(nor, now, word, out)
    }

    /// Whether there are short starts, there is room to clear their count, and the mote has run long enough to do so.
    fn clears(&self, now: u64) -> bool
        ensures { (m : MoteState) (s : Store) → self.now.since ≡ m.since → Tells self.now.volume s → result ≡ clears m s now }
    {
        self.volume.snapshot().gesture >= 1
            && now.saturating_sub(self.since) >= LONG_RUN
            && self.volume.room() >= 1
    }

    /// Does what its mode asks for.
    #[inline(always)]
    fn tick_mode<N: Nor>(
        &mut self,
        nor: &mut N,
        now: u64,
        word: u32,
        out: &mut Outbox,
    ) -> Result<Did, Stopped>
        requires mote { (m : MoteState) × (s : Store) × IsMote (N.device nor.old).image self.old m s }
        requires moment { now < 2 ^ 62 }
        requires empty { sent_in out.old ≡ None }
        ensures done { IfOk result (λ did. (m : MoteState) (s : Store) → IsMote (N.device nor.old).image self.old m s
            → Done (mode_tick m.mode m s now word) (N.device nor.old) (N.device nor.new) self.new did) }
        ensures sent { OnOk result ((m : MoteState) (s : Store) → IsMote (N.device nor.old).image self.old m s
            → sent_in out.new ≡ option_map frame_of (mode_tick m.mode m s now word).sent) }
        ensures read { OnOk result ((m : MoteState) (s : Store) → IsMote (N.device nor.old).image self.old m s
            → IfSome (mode_tick m.mode m s now word).sent (IsRead m.wide)) }
        ensures same_reference { (N.device nor.new).references ≡ (N.device nor.old).references }
        ensures stopped { OnErr result ((m : MoteState) (s : Store) → IsMote (N.device nor.old).image self.old m s
            → Stops (mode_tick m.mode m s now word).trail (N.device nor.old) (N.device nor.new)) }
        ensures nothing_sent { OnErr result (sent_in out.new ≡ None) }
    {
        if has_order(&self.volume) {
            return self.tick_busy(nor, now, word, out);
        }
        match &mut self.mode {
            Mode::Maintain(trickle) => {
                let wide = self.wide;
                Ok(advertise(self.id, wide, &self.volume, trickle, now, word, out))
            }
            Mode::Receive { .. } => self.tick_busy(nor, now, word, out),
            Mode::Transmit { .. } => self.tick_busy(nor, now, word, out),
        }
    }

    /// The same, for a mote that receives, serves or keeps an order. It is not inlined: most ticks are of motes that do none of
    /// this.
    #[inline(never)]
    fn tick_busy<N: Nor>(
        &mut self,
        nor: &mut N,
        now: u64,
        word: u32,
        out: &mut Outbox,
    ) -> Result<Did, Stopped>
        requires mote { (m : MoteState) × (s : Store) × IsMote (N.device nor.old).image self.old m s }
        requires moment { now < 2 ^ 62 }
        requires empty { sent_in out.old ≡ None }
        ensures done { IfOk result (λ did. (m : MoteState) (s : Store) → IsMote (N.device nor.old).image self.old m s
            → Done (mode_tick m.mode m s now word) (N.device nor.old) (N.device nor.new) self.new did) }
        ensures sent { OnOk result ((m : MoteState) (s : Store) → IsMote (N.device nor.old).image self.old m s
            → sent_in out.new ≡ option_map frame_of (mode_tick m.mode m s now word).sent) }
        ensures read { OnOk result ((m : MoteState) (s : Store) → IsMote (N.device nor.old).image self.old m s
            → IfSome (mode_tick m.mode m s now word).sent (IsRead m.wide)) }
        ensures same_reference { (N.device nor.new).references ≡ (N.device nor.old).references }
        ensures stopped { OnErr result ((m : MoteState) (s : Store) → IsMote (N.device nor.old).image self.old m s
            → Stops (mode_tick m.mode m s now word).trail (N.device nor.old) (N.device nor.new)) }
        ensures nothing_sent { OnErr result (sent_in out.new ≡ None) }
    {
        match &mut self.mode {
            Mode::Maintain(trickle) => {
                let wide = self.wide;
                Ok(maintain(self.id, wide, &self.volume, trickle, now, word, out))
            }
            Mode::Receive {
                version,
                server,
                asking,
                job,
            } => match asking.next(now) {
                Ask::Request(want) => {
                    out.put(&request_message(self.id, *server, *version, job, want));
                    Ok(Did::Sent)
                }
                Ask::GiveUp => {
                    self.maintain_anew(now, word);
                    Ok(Did::Idle)
                }
                Ask::Wait => Ok(Did::Idle),
            },
            Mode::Transmit {
                image,
                version,
                page,
                serving,
            } => match serving.next(now) {
                Serve::Send(packet) => {
                    let message = packet_message(nor, self.id, *image, *version, *page, packet)?;
                    out.put(&message);
                    if serving.left() == 0 {
                        self.mode = Mode::Maintain(Trickle::new(now, word));
                    }
                    Ok(Did::Sent)
                }
                Serve::Done | Serve::Wait => Ok(Did::Idle),
            },
        }
    }
}

/// Resets the count of short starts to 0. It is not inlined: at most one tick per start does it.
#[inline(never)]
fn clear_gesture<N: Nor>(volume: &mut Volume, nor: &mut N) -> Result<(), Stopped>
    requires mounted { IsMounted (N.device nor.old).image volume.old }
    requires room { 1 ≤ room_of volume.old }
    ensures acted { OnOk result ((s : Store) → Mounted (N.device nor.old).image volume.old s
        → Acted (clear_trail s) (N.device nor.old) (N.device nor.new) volume.new) }
    ensures same_reference { (N.device nor.new).references ≡ (N.device nor.old).references }
    ensures lent { (i : ℕ) → is_lent volume.new i ≡ is_lent volume.old i }
    ensures job { (j : PageJob) (h : Held) (ps : Packets) → IsJob (N.device nor.old).image j h ps
        → IsJob (N.device nor.new).image j h ps }
    ensures stopped { OnErr result ((s : Store) → Mounted (N.device nor.old).image volume.old s
        → Stops (clear_trail s) (N.device nor.old) (N.device nor.new)) }
{
    volume.clear_gesture(nor)
}

/// What it does while it maintains: it asks for a restart if an order is pending. Otherwise it ticks its timer, and
/// advertises if the timer says so.
#[inline(always)]
fn maintain(
    id: u16,
    wide: bool,
    volume: &Volume,
    trickle: &mut Trickle,
    now: u64,
    word: u32,
    out: &mut Outbox,
) -> Did
    requires mounted { (c : List ℕ) × IsMounted c volume.now }
    requires moment { now < 2 ^ 62 }
    requires empty { sent_in out.old ≡ None }
    ensures { (m : MoteState) (s : Store) → m.id ≡ id → m.wide ≡ wide → m.mode ≡ Maintain trickle.old → Tells volume.now s
        → EndsInMode (maintain_tick m trickle.old s now word) m s (Maintain trickle.new) out.new result }
{
    if order_waits(volume) {
        return Did::Restart;
    }
    advertise(id, wide, volume, trickle, now, word, out)
}

/// Whether an order is kept. Without one none is pending.
fn has_order(volume: &Volume) -> bool
    ensures { (s : Store) → Tells volume.now s → result ≡ false → order_waits s ≡ false }
{
    volume.snapshot().order.number != 0
}

/// Ticks the timer of a mote that maintains and has no order pending, and advertises if the timer says so.
#[inline(always)]
fn advertise(
    id: u16,
    wide: bool,
    volume: &Volume,
    trickle: &mut Trickle,
    now: u64,
    word: u32,
    out: &mut Outbox,
) -> Did
    requires mounted { (c : List ℕ) × IsMounted c volume.now }
    requires moment { now < 2 ^ 62 }
    requires empty { sent_in out.old ≡ None }
    requires none { (s : Store) → Tells volume.now s → order_waits s ≡ false }
    ensures { (m : MoteState) (s : Store) → m.id ≡ id → m.wide ≡ wide → m.mode ≡ Maintain trickle.old → Tells volume.now s
        → EndsInMode (maintain_tick m trickle.old s now word) m s (Maintain trickle.new) out.new result }
{
    match trickle.tick(now, word) {
        Act::Send => {
            put_advert(id, wide, volume, out);
            Did::Sent
        }
        Act::Quiet | Act::Expired | Act::Nothing => Did::Idle,
    }
}

/// Puts the advert of what a volume keeps into the outbox. It is not inlined: most ticks send no advert.
#[inline(never)]
fn put_advert(id: u16, wide: bool, volume: &Volume, out: &mut Outbox)
    requires { (c : List ℕ) × IsMounted c volume.now }
    ensures sent { (s : Store) → Tells volume.now s → sent_in out.new ≡ Some (frame_of (advert_of id wide s)) }
    ensures read { (s : Store) → Tells volume.now s → IsRead wide (advert_of id wide s) }
{
    out.put(&advert_message(id, wide, volume));
}

/// A request for packets of the page that is being filled.
fn request_message(
    id: u16,
    server: u16,
    version: u32,
    job: &PageJob,
    want: PageBits<PACKETS>,
) -> Message
    ensures { result ≡ message.Request id server (outline_of_slot (slot_of job.now)).image version
        (done_of_slot (slot_of job.now)) want }
{
    Message::Request {
        source: id,
        to: server,
        image: job.image(),
        version,
        page: job.page(),
        want,
    }
}

/// The message of a packet, as read from its slot.
fn packet_message<N: Nor>(
    nor: &mut N,
    id: u16,
    image: u8,
    version: u32,
    page: u8,
    packet: u8,
) -> Result<Message, Stopped>
    requires known_image { image < slots }
    requires known_page { page < most_pages }
    requires known_packet { packet < packets }
    ensures message { IfOk result (λ x. x ≡ message.Packet id image version page packet
        (packet_in (N.device nor.old).image (page_sector image page) packet)) }
    ensures ends { ReadEnds result (N.device nor.old) (N.device nor.new) }
{
    let mut bytes = [0; PACKET_SIZE];
    read_packet(nor, image, page, packet, &mut bytes)?;
    Ok(Message::Packet {
        source: id,
        image,
        version,
        page,
        packet,
        bytes,
    })
}
