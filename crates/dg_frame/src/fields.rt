//! Fields that several kinds of frames have, each read at its offset and written after the ones before it.
ghost use Rattle.std.specs.Prelude.{◌≡◌, ℕ, ◌+◌, ◌-◌, ◌*◌, ◌^◌, ◌<◌, ◌≤◌, ◌++◌, ◌∷◌, length, take, drop};
ghost use Rattle.std.specs.Int.{to_be_bytes, w16, w32};
ghost use Rattle.std.specs.List.{AllByRecursion, flat_map};
ghost use Rattle.arrayvec.specs.ArrayVec.{array_vec_len};
ghost use Rattle.dg_control.specs.Snapshot.{order_bytes};
ghost use Rattle.dg_bits.specs.Sets.{AllBelow};
ghost use Rattle.dg_bits.specs.ByteForm.{numbers_of, byte_form};
ghost use Rattle.dg_frame.specs.Sizes.{frame_bytes, packets, entry_size, order_size, set_bytes};
ghost use Rattle.dg_frame.specs.Grammar.{half_at, word_in, entry_in_frame, order_at};
ghost use Rattle.dg_frame.specs.Spelling.{entry_bytes, EntryFitsTypes};

use crate::{Entry, Frame, SET_BYTES};
use byteorder::{BigEndian, ByteOrder};
use dg_bits::PageBits;
use dg_control::Order;
use dg_object::PACKETS;

/// The number of two bytes at an offset, the high byte first.
pub fn half_at(bytes: &[u8], at: usize) -> u16
    requires { at + 2 ≤ length bytes.now }
    ensures { result ≡ half_at bytes.now at }
{
    BigEndian::read_u16(&bytes[at..])
}

/// The number of four bytes at an offset, the highest byte first.
pub fn word_in(bytes: &[u8], at: usize) -> u32
    requires { at + 4 ≤ length bytes.now }
    ensures { result ≡ word_in bytes.now at }
{
    BigEndian::read_u32(&bytes[at..])
}

pub(crate) fn entry_at(bytes: &[u8], at: usize) -> Entry
    requires { at + entry_size ≤ length bytes.now }
    ensures { result ≡ entry_in_frame bytes.now at }
{
    Entry {
        version: word_in(bytes, at),
        pages: bytes[at + 4],
        have: bytes[at + 5],
        crc: half_at(bytes, at + 6),
    }
}

pub(crate) fn order_at(bytes: &[u8], at: usize) -> Order
    requires { at + order_size ≤ length bytes.now }
    ensures { result ≡ order_at bytes.now at }
{
    Order {
        number: word_in(bytes, at),
        image: bytes[at + 4],
        version: word_in(bytes, at + 5),
    }
}

pub(crate) fn set_at(bytes: &[u8], at: usize) -> PageBits<PACKETS>
    requires { at + set_bytes ≤ length bytes.now }
    ensures { result ≡ numbers_of (take set_bytes (drop at bytes.now)) }
{
    PageBits::from_bytes(&bytes[at..at + SET_BYTES]).unwrap()
}

/// Appends bytes for which there is capacity.
pub(crate) fn put(frame: &mut Frame, bytes: &[u8])
    requires { array_vec_len frame.old + length bytes.now ≤ frame_bytes }
    ensures items { frame.new.items ≡ frame.old.items ++ bytes.now }
    ensures len { array_vec_len frame.new ≡ array_vec_len frame.old + length bytes.now }
{
    let _ = frame.try_extend_from_slice(bytes);
}

pub(crate) fn put_half(frame: &mut Frame, number: u16)
    requires { array_vec_len frame.old + 2 ≤ frame_bytes }
    ensures items { frame.new.items ≡ frame.old.items ++ to_be_bytes w16 number }
    ensures len { array_vec_len frame.new ≡ array_vec_len frame.old + 2 }
{
    let mut bytes = [0; 2];
    BigEndian::write_u16(&mut bytes, number);
    put(frame, &bytes);
}

pub(crate) fn put_word(frame: &mut Frame, number: u32)
    requires { array_vec_len frame.old + 4 ≤ frame_bytes }
    ensures items { frame.new.items ≡ frame.old.items ++ to_be_bytes w32 number }
    ensures len { array_vec_len frame.new ≡ array_vec_len frame.old + 4 }
{
    let mut bytes = [0; 4];
    BigEndian::write_u32(&mut bytes, number);
    put(frame, &bytes);
}

pub(crate) fn put_entry(frame: &mut Frame, entry: &Entry)
    requires { array_vec_len frame.old + entry_size ≤ frame_bytes }
    ensures items { frame.new.items ≡ frame.old.items ++ entry_bytes entry.now }
    ensures len { array_vec_len frame.new ≡ array_vec_len frame.old + entry_size }
    ensures fits { EntryFitsTypes entry.now }
{
    put_word(frame, entry.version);
    frame.push(entry.pages);
    frame.push(entry.have);
    put_half(frame, entry.crc);
}

pub(crate) fn put_entries(frame: &mut Frame, entries: &[Entry])
    requires { array_vec_len frame.old + entry_size * length entries.now ≤ frame_bytes }
    ensures items { frame.new.items ≡ frame.old.items ++ flat_map entry_bytes entries.now }
    ensures len { array_vec_len frame.new ≡ array_vec_len frame.old + entry_size * length entries.now }
    ensures fit { AllByRecursion EntryFitsTypes entries.now }
{
    for entry in entries {
        put_entry(frame, entry);
    }
}

pub(crate) fn put_order(frame: &mut Frame, order: &Order)
    requires { array_vec_len frame.old + order_size ≤ frame_bytes }
    ensures items { frame.new.items ≡ frame.old.items ++ order_bytes order.now }
    ensures len { array_vec_len frame.new ≡ array_vec_len frame.old + order_size }
    ensures number_fits { order.now.number < 2 ^ 32 }
    ensures version_fits { order.now.version < 2 ^ 32 }
{
    put_word(frame, order.number);
    frame.push(order.image);
    put_word(frame, order.version);
}

pub(crate) fn put_set(frame: &mut Frame, set: &PageBits<PACKETS>)
    requires { array_vec_len frame.old + set_bytes ≤ frame_bytes }
    ensures items { frame.new.items ≡ frame.old.items ++ byte_form set_bytes set.now }
    ensures len { array_vec_len frame.new ≡ array_vec_len frame.old + set_bytes }
    ensures fits { AllBelow packets set.now }
{
    let mut bytes = [0; SET_BYTES];
    set.to_bytes(&mut bytes);
    put(frame, &bytes);
}
