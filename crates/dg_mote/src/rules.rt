//! The rules of a mote in the words of Deluge and Trickle. These functions do nothing: their contracts are the laws.
ghost use Rattle.std.specs.Prelude.{◌≡◌, ◌≢◌, ◌⊎◌, ◌↔◌, ℕ, ◌+◌, ◌≤◌, Bool, true, List, length, ◌∷◌, Some, None, Ok, Err};
ghost use Rattle.std.specs.List.{AllByRecursion};
ghost use Rattle.std.specs.FinSet as set;
ghost use Rattle.dg_nor.specs.Trail.{last, resting};
ghost use Rattle.dg_bits.specs.Sets.{Numbers};
ghost use Rattle.dg_trickle.specs.Timer.{Timer};
ghost use Rattle.dg_trickle.specs.Steps.{after_same};
ghost use Rattle.dg_quiet.specs.Times.{request_window, packet_window};
ghost use Rattle.dg_quiet.specs.Noted.{with_request, with_packet};
ghost use Rattle.dg_send.specs.Steps.{owed_begun};
ghost use Rattle.dg_control.specs.declared.snapshot.Order.{Order};
ghost use Rattle.dg_slot.specs.Kept.{Held};
ghost use Rattle.dg_volume.specs.Store.{Store, held};
ghost use Rattle.dg_frame.specs.Sizes.{known_images};
ghost use Rattle.dg_frame.specs.Grammar.{message_of};
ghost use Rattle.dg_frame.specs.declared.Entry.{Entry};
ghost use Rattle.dg_frame.specs.declared.FrameFault.{FrameFault};
ghost use Rattle.dg_frame.specs.declared.Message.TheVariants as message;
ghost use Rattle.dg_mote.specs.Model.{MoteState, Maintain, Transmit, Sending};
ghost use Rattle.dg_mote.specs.Summary.{entry_for, entries_of, advert_by, advert_of, is_own};
ghost use Rattle.dg_mote.specs.Ticks.{tick_of};
ghost use Rattle.dg_mote.specs.Hears.{heard_of};
ghost use Rattle.dg_mote.specs.Rules.{IsOfUse, HasPage, AsksFor, MayRestart, MoteEvent, Hears, sent_while, AllBetween, IsSilent};
ghost use Rattle.dg_mote.specs.Rules.{NoRequest, AsksNotFor, AllInInterval};
ghost use Rattle.dg_mote.specs.declared.mote.Did.TheVariants as did;
ghost use Rattle.dg_mote.specs.declared.mote.Heard.TheVariants as heard;

/// A mote that hears an advert equal to its own sends nothing in the rest of that timer interval, whatever it hears (RFC
/// 6206, section 4.2, steps 3 and 4, with a redundancy of 1). A wide mote compares a narrow advert by the images that the
/// advert names, and by its order.
pub fn an_equal_advert_keeps_a_mote_silent()
    ensures heard { (m : MoteState) (s : Store) (timer : Timer) (now word : ℕ) (bytes : List ℕ) (wide : Bool) (source : ℕ)
        (entries : List Entry) (order : Order)
        → message_of bytes m.wide ≡ Ok (advert_by wide source entries order) → source ≢ m.id → m.mode ≡ Maintain timer
        → is_own entries order m.wide s ≡ true
        → heard_of m s now word bytes ≡ record {
          mote = record m { mode = Maintain (after_same timer) };
          trail = resting s 0;
          sent = None;
          answer = heard.Same;
        } }
    ensures silent { (m : MoteState) (s : Store) (timer : Timer) (events : List MoteEvent) → m.mode ≡ Maintain timer
        → 1 ≤ timer.count → AllInInterval timer events m s
        → IsSilent (sent_while events m s) }
{}

/// A mote that overhears a request for a page that would be of use to it does not begin to ask for that image for 128,000
/// milliseconds (suppression, Hui and Culler, SenSys 2004). A mote that already asks for it continues.
pub fn an_overheard_request_keeps_a_mote_from_asking()
    ensures noted { (m : MoteState) (s : Store) (now word : ℕ) (bytes : List ℕ) (source to image version page : ℕ)
        (want : Numbers)
        → message_of bytes m.wide ≡ Ok (message.Request source to image version page want) → source ≢ m.id → to ≢ m.id
        → IsOfUse (held s image) version page
        → heard_of m s now word bytes ≡ record {
          mote = record m { noted = with_request m.noted now image };
          trail = resting s 0;
          sent = None;
          answer = heard.Noted;
        } }
    ensures after { (m : MoteState) (s : Store) (now word : ℕ) (bytes : List ℕ) (source to image version page : ℕ)
        (want : Numbers) (events : List MoteEvent)
        → message_of bytes m.wide ≡ Ok (message.Request source to image version page want) → source ≢ m.id → to ≢ m.id
        → IsOfUse (held s image) version page
        → AsksNotFor image m.mode → AllBetween now (now + request_window) events
        → AllByRecursion (NoRequest image) (sent_while (Hears now word bytes ∷ events) m s) }
{}

/// A mote that overhears a packet of such a page, while it maintains, does not begin to ask for its image for 64,000
/// milliseconds.
pub fn an_overheard_packet_keeps_a_mote_from_asking()
    ensures noted { (m : MoteState) (s : Store) (timer : Timer) (now word : ℕ) (bytes : List ℕ)
        (source image version page q : ℕ) (content : List ℕ)
        → message_of bytes m.wide ≡ Ok (message.Packet source image version page q content) → source ≢ m.id
        → m.mode ≡ Maintain timer → IsOfUse (held s image) version page
        → heard_of m s now word bytes ≡ record {
          mote = record m { noted = with_packet m.noted now image };
          trail = resting s 0;
          sent = None;
          answer = heard.Noted;
        } }
    ensures after { (m : MoteState) (s : Store) (timer : Timer) (now word : ℕ) (bytes : List ℕ)
        (source image version page q : ℕ) (content : List ℕ) (events : List MoteEvent)
        → message_of bytes m.wide ≡ Ok (message.Packet source image version page q content) → source ≢ m.id
        → m.mode ≡ Maintain timer → IsOfUse (held s image) version page
        → AllBetween now (now + packet_window) events
        → AllByRecursion (NoRequest image) (sent_while (Hears now word bytes ∷ events) m s) }
{}

/// A request names its packets in a set: the missing packets of the wanted page. A request for the page that is being served
/// adds its packets to those that are owed, and nothing else changes (the union of requests, Hui and Culler, SenSys 2004).
pub fn requests_are_sets()
    ensures asked { (m : MoteState) (s : Store) (now word source to image version page : ℕ) (want : Numbers)
        → (tick_of m s now word).sent ≡ Some (message.Request source to image version page want)
        → AsksFor m source to image version page want }
    ensures added { (m : MoteState) (s : Store) (t : Sending) (now word : ℕ) (bytes : List ℕ) (source : ℕ) (want : Numbers)
        → message_of bytes m.wide ≡ Ok (message.Request source m.id t.image t.version t.page want) → source ≢ m.id
        → m.mode ≡ Transmit t
        → heard_of m s now word bytes ≡ record {
          mote = record m {
            mode = Transmit (record t
                { owed = record { left = set.union t.owed.left want; due = t.owed.due } });
          };
          trail = resting s 0;
          sent = None;
          answer = heard.Merged;
        } }
{}

/// A mote forwards an image of which it has some pages. Its adverts say how many, and it serves a request to itself exactly
/// if it keeps that version and the page is complete. The image need not be whole (pipelining over hops, Hui and Culler,
/// SenSys 2004).
pub fn pages_are_forwarded_before_the_image_is_whole()
    ensures advert { (m : MoteState) (s : Store) (now word : ℕ) (wide : Bool) (source : ℕ) (entries : List Entry) (order : Order)
        → (tick_of m s now word).sent ≡ Some (advert_by wide source entries order)
        → advert_by wide source entries order ≡ advert_of m.id m.wide s }
    ensures entry { (wide : Bool) (s : Store) (image : ℕ) (h : Held) → 1 ≤ image → image ≤ known_images wide
        → held s image ≡ Some h
        → entry_for (entries_of wide s) image
        ≡ record { version = h.version; pages = h.pages; have = length h.complete; crc = h.crc } }
    ensures served { (m : MoteState) (s : Store) (timer : Timer) (now word : ℕ) (bytes : List ℕ)
        (source image version page : ℕ) (want : Numbers)
        → message_of bytes m.wide ≡ Ok (message.Request source m.id image version page want) → source ≢ m.id
        → m.mode ≡ Maintain timer → HasPage s image version page
        → heard_of m s now word bytes ≡ record {
          mote = record m {
            mode = Transmit (record { image = image; version = version; page = page; owed = owed_begun now want });
          };
          trail = resting s 0;
          sent = None;
          answer = heard.Serves image page;
        } }
    ensures refused { (m : MoteState) (s : Store) (timer : Timer) (now word : ℕ) (bytes : List ℕ)
        (source image version page : ℕ) (want : Numbers)
        → message_of bytes m.wide ≡ Ok (message.Request source m.id image version page want) → source ≢ m.id
        → m.mode ≡ Maintain timer → (HasPage s image version page → ⊥)
        → heard_of m s now word bytes ≡ record { mote = m; trail = resting s 0; sent = None; answer = heard.Dropped } }
{}

/// A tick answers Restart exactly if the mote maintains, no short starts are to be cleared and the order is pending. Nothing
/// is changed or sent then.
pub fn a_restart_is_for_the_order()
    ensures exactly { (m : MoteState) (s : Store) (now word : ℕ)
        → ((tick_of m s now word).answer ≡ did.Restart) ↔ MayRestart m s now }
    ensures nothing { (m : MoteState) (s : Store) (now word : ℕ) → (tick_of m s now word).answer ≡ did.Restart
        → tick_of m s now word ≡ record { mote = m; trail = resting s 0; sent = None; answer = did.Restart } }
{}

/// A mote that hears a frame sends nothing. A frame is refused exactly if it spells no message. A frame that is refused or
/// dropped changes nothing.
pub fn a_frame_is_heard_in_silence()
    ensures silent { (m : MoteState) (s : Store) (now word : ℕ) (bytes : List ℕ) → (heard_of m s now word bytes).sent ≡ None }
    ensures refused { (m : MoteState) (s : Store) (now word : ℕ) (bytes : List ℕ) (fault : FrameFault)
        → ((heard_of m s now word bytes).answer ≡ heard.Refused fault) ↔ (message_of bytes m.wide ≡ Err fault) }
    ensures unchanged { (m : MoteState) (s : Store) (now word : ℕ) (bytes : List ℕ) (fault : FrameFault)
        → message_of bytes m.wide ≡ Err fault
        → heard_of m s now word bytes ≡ record { mote = m; trail = resting s 0; sent = None; answer = heard.Refused fault } }
    ensures dropped { (m : MoteState) (s : Store) (now word : ℕ) (bytes : List ℕ)
        → (heard_of m s now word bytes).answer ≡ heard.Dropped
        → ((heard_of m s now word bytes).mote ≡ m) × ((heard_of m s now word bytes).trail ≡ resting s 0) }
{}
