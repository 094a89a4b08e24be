//! What holds of motes by their rules. These functions do nothing: their contracts are the laws.
ghost use Rattle.std.specs.Prelude.{◌≡◌, ℕ, ◌<◌, ◌≤◌, ◌^◌, Bool, List, length, Ok, IfSome, IfOk};
ghost use Rattle.dg_nor.specs.Trail.{Trail, last, Leaves};
ghost use Rattle.dg_nor.specs.Through.{Through};
ghost use Rattle.dg_object.specs.Object.{Row};
ghost use Rattle.dg_volume.specs.Store.{Store, IsNear};
ghost use Rattle.dg_volume.specs.Table.{IsTable};
ghost use Rattle.dg_volume.specs.Agreement.{Agrees};
ghost use Rattle.dg_volume.specs.Trails.{BeginsAt};
ghost use Rattle.dg_frame.specs.Grammar.{message_of};
ghost use Rattle.dg_frame.specs.Spelling.{frame_of, FitsTypes};
ghost use Rattle.dg_frame.specs.declared.Message.{Message};
ghost use Rattle.dg_mote.specs.Sizes.{outbox_bytes, buffered_bytes, buffered_size, BuffersFit, ValuesAreSmall};
ghost use Rattle.dg_mote.specs.Model.{MoteState, begun_mote, maintains};
ghost use Rattle.dg_mote.specs.Ticks.{tick_of};
ghost use Rattle.dg_mote.specs.Hears.{heard_of};
ghost use Rattle.dg_mote.specs.Effects.{reset_effect, tick_effect, frame_effect};
ghost use Rattle.dg_mote.specs.Timely.{Timely};
ghost use Rattle.dg_mote.specs.declared.mote.Heard.TheVariants.{Bad};
ghost use Rattle.dg_mote.specs.Agreement.{ModeAgrees, IsHonest};
ghost use Rattle.dg_mote.specs.Well.{StoreIsWell, IsWell, TurnIsWell, EffectIsWell, SendsHonest};
ghost use Rattle.dg_mote.specs.Consistency.{AsksForKnown, StoreIsConsistent, TurnIsConsistent};
ghost use Rattle.dg_mote.specs.Speaking.{OrderFits, Speaks, TurnSpeaks, EffectSpeaks, IsSaid};

use dg_base::checksum_is_a_remainder;
use dg_frame::{one_reading, one_spelling};
use dg_object::{a_row_has_a_descriptor, a_row_is_its_pages};
use dg_slot::a_page_is_its_packets;
use dg_volume::{
    a_row_is_filled_page_by_page, a_start_ends, a_table_holds_sound_rows, acts_end,
    an_agreeing_store_keeps_rows, starts_end, trails_begin, trails_keep_agreement,
    trails_keep_consistency,
};

/// No past event is recorded in a mote with a time later than now, and what is due is due soon. Every effect preserves this.
pub fn a_mote_stays_timely()
    ensures begins { (id now word : ℕ) (wide : Bool) → Timely (begun_mote id wide now word) now }
    ensures later { (m : MoteState) (now then : ℕ) → now ≤ then → Timely m now → Timely m then }
    ensures reloaded { (m : MoteState) (now word : ℕ) → Timely m now → Timely (maintains m now word) now }
    ensures ticked { (m : MoteState) (s : Store) (now word : ℕ) → Timely m now → Timely (tick_of m s now word).mote now }
    ensures heard { (m : MoteState) (s : Store) (now word : ℕ) (bytes : List ℕ) → Timely m now
        → Timely (heard_of m s now word bytes).mote now }
{}

/// The trail of a step begins at the store before the step, and may follow another trail.
pub fn steps_begin()
    ensures ticked { (m : MoteState) (s : Store) (now word : ℕ) → BeginsAt s (tick_of m s now word).trail }
    ensures heard { (m : MoteState) (s : Store) (now word : ℕ) (bytes : List ℕ) → BeginsAt s (heard_of m s now word bytes).trail }
{
    trails_begin();
}

/// An agreeing mote that ticks, or hears an honest frame, still agrees, and so does every intermediate store. What it sends
/// is honest, and a page that came in honest packets is never Bad.
pub fn a_mote_keeps_agreement()
    ensures begins { (table : List Row) (s : Store) (id now word : ℕ) (wide : Bool)
        → ModeAgrees table s (begun_mote id wide now word).mode }
    ensures ticked { (table : List Row) (m : MoteState) (s : Store) (now word : ℕ) → Agrees table s → ModeAgrees table s m.mode
        → Through (Agrees table) (tick_of m s now word).trail
        × ModeAgrees table (last (tick_of m s now word).trail) (tick_of m s now word).mote.mode }
    ensures honest { (table : List Row) (m : MoteState) (s : Store) (now word : ℕ) → Agrees table s → ModeAgrees table s m.mode
        → SendsHonest table (tick_of m s now word).sent }
    ensures heard { (table : List Row) (m : MoteState) (s : Store) (now word : ℕ) (bytes : List ℕ) → IsTable table
        → IsHonest table bytes → StoreIsWell table s → ModeAgrees table s m.mode
        → Through (StoreIsWell table) (heard_of m s now word bytes).trail
        × ModeAgrees table (last (heard_of m s now word bytes).trail) (heard_of m s now word bytes).mote.mode }
    ensures sealed { (table : List Row) (m : MoteState) (s : Store) (now word : ℕ) (bytes : List ℕ) → IsTable table
        → IsHonest table bytes → StoreIsWell table s → ModeAgrees table s m.mode
        → (image page : ℕ) → (heard_of m s now word bytes).answer ≡ Bad image page → ⊥ }
{
    a_table_holds_sound_rows();
    a_row_is_filled_page_by_page();
    trails_begin();
    trails_keep_agreement();
    acts_end();
    an_agreeing_store_keeps_rows();
    a_page_is_its_packets();
    a_row_is_its_pages();
    one_reading();
}

/// A mote that agrees and is timely stays so as it ticks, at any time and with any word, as it hears honest frames and as it
/// starts. Every intermediate store agrees, also one that a stop leaves. A start over such a store finds an image, which is
/// a row of the table.
pub fn a_mote_stays_well()
    ensures begins { (table : List Row) (s : Store) (id now word : ℕ) (wide : Bool) → StoreIsWell table s
        → IsWell table (begun_mote id wide now word) s now }
    ensures later { (table : List Row) (m : MoteState) (s : Store) (now then : ℕ) → now ≤ then → IsWell table m s now
        → IsWell table m s then }
    ensures reloaded { (table : List Row) (m : MoteState) (s : Store) (now word : ℕ) → Timely m now → StoreIsWell table s
        → IsWell table (maintains m now word) s now }
    ensures ticked { (table : List Row) (m : MoteState) (s : Store) (now word : ℕ) → IsWell table m s now
        → TurnIsWell table (tick_of m s now word) now }
    ensures heard { (table : List Row) (m : MoteState) (s : Store) (now word : ℕ) (bytes : List ℕ) → IsTable table
        → IsHonest table bytes → IsWell table m s now → TurnIsWell table (heard_of m s now word bytes) now }
    ensures tick_effect { (table : List Row) (m : MoteState) (s : Store) (now word : ℕ) → IsTable table
        → IsWell table m s now → EffectIsWell table (tick_effect m s now word) now }
    ensures frame_effect { (table : List Row) (m : MoteState) (s : Store) (now word : ℕ) (bytes : List ℕ) → IsTable table
        → IsHonest table bytes → IsWell table m s now → EffectIsWell table (frame_effect m s now word bytes) now }
    ensures reset_effect { (table : List Row) (s : Store) (id now word : ℕ) (wide : Bool) → IsTable table
        → StoreIsWell table s → EffectIsWell table (reset_effect s id wide now word) now }
    ensures stopped { (table : List Row) (t : Trail Store) (k : ℕ) (s : Store) → Through (StoreIsWell table) t
        → Leaves IsNear t k s → StoreIsWell table s }
{
    a_mote_keeps_agreement();
    trails_begin();
    trails_keep_agreement();
    a_start_ends();
    starts_end();
    a_table_holds_sound_rows();
    a_row_is_its_pages();
}

/// A mote that asks for no image, or for one that its chip can keep, goes through consistent stores as it ticks and as it
/// hears a frame, whatever the bytes are. Afterwards it again asks for no image, or for one that its chip can keep. Every
/// store that a stop leaves is consistent too.
pub fn a_mote_keeps_consistency()
    ensures begins { (id now word : ℕ) (wide : Bool) → AsksForKnown (begun_mote id wide now word).mode }
    ensures reloaded { (m : MoteState) (now word : ℕ) → AsksForKnown (maintains m now word).mode }
    ensures ticked { (golden : Row) (m : MoteState) (s : Store) (now word : ℕ) → StoreIsConsistent golden s
        → AsksForKnown m.mode → TurnIsConsistent golden (tick_of m s now word) }
    ensures heard { (golden : Row) (m : MoteState) (s : Store) (now word : ℕ) (bytes : List ℕ) → StoreIsConsistent golden s
        → AsksForKnown m.mode → TurnIsConsistent golden (heard_of m s now word bytes) }
    ensures stopped { (golden : Row) (t : Trail Store) (k : ℕ) (s : Store) → Through (StoreIsConsistent golden) t
        → Leaves IsNear t k s → StoreIsConsistent golden s }
{
    trails_keep_consistency();
}

/// What a well mote sends is honest, names the mote, and is read back unchanged by motes of its width, if its id has two
/// bytes and its store's order fits into a wide frame. Ticks, starts and frames whose fields fit preserve this.
pub fn what_is_sent_is_read()
    ensures said { (table : List Row) (m : MoteState) (s : Store) (now word : ℕ) → IsTable table → IsWell table m s now
        → Speaks m s → IfSome (tick_of m s now word).sent (IsSaid m.id m.wide) }
    ensures honest { (table : List Row) (m : MoteState) (s : Store) (now word : ℕ) → IsTable table → IsWell table m s now
        → Speaks m s
        → IfSome (tick_of m s now word).sent (λ message. IsHonest table (frame_of message)) }
    ensures begins { (s : Store) (id now word : ℕ) (wide : Bool) → id < 2 ^ 16 → OrderFits s.order
        → Speaks (begun_mote id wide now word) s }
    ensures ticked { (m : MoteState) (s : Store) (now word : ℕ) → Speaks m s → TurnSpeaks m.id m.wide (tick_of m s now word) }
    ensures heard { (m : MoteState) (s : Store) (now word : ℕ) (bytes : List ℕ) → IfOk (message_of bytes m.wide) FitsTypes
        → Speaks m s → TurnSpeaks m.id m.wide (heard_of m s now word bytes) }
    ensures tick_effect { (m : MoteState) (s : Store) (now word : ℕ) → Speaks m s
        → EffectSpeaks m.id m.wide (tick_effect m s now word) }
    ensures frame_effect { (m : MoteState) (s : Store) (now word : ℕ) (bytes : List ℕ)
        → IfOk (message_of bytes m.wide) FitsTypes → Speaks m s → EffectSpeaks m.id m.wide (frame_effect m s now word bytes) }
    ensures reset_effect { (s : Store) (id now word : ℕ) (wide : Bool) → id < 2 ^ 16 → OrderFits s.order
        → EffectSpeaks id wide (reset_effect s id wide now word) }
    ensures stopped { (t : Trail Store) (k : ℕ) (s : Store) → Through (λ x. OrderFits x.order) t → Leaves IsNear t k s
        → OrderFits s.order }
{
    a_mote_keeps_agreement();
    trails_begin();
    a_start_ends();
    a_table_holds_sound_rows();
    a_row_is_its_pages();
    a_row_has_a_descriptor();
    checksum_is_a_remainder();
    one_reading();
    one_spelling();
}

/// The outbox, the packet sets and the largest array of a call have 220 bytes by their types, or 214 if a set is counted in
/// the form that a frame gives it. All arrays of bytes that are alive at once in a call, or while a chip is mounted, have at
/// most 256 bytes by their types. The value of a mote contains no array except the outbox and the sets. Each frame that is
/// read, by a wide reader or a narrow one, fits into the outbox.
pub fn a_mote_buffers_little()
    ensures counted { buffered_bytes ≡ 214 }
    ensures typed { buffered_size ≡ 220 }
    ensures alive { BuffersFit }
    ensures values { ValuesAreSmall }
    ensures frames { (wide : Bool) (bytes : List ℕ) (message : Message) → message_of bytes wide ≡ Ok message
        → length bytes ≤ outbox_bytes }
{
    one_reading();
}
