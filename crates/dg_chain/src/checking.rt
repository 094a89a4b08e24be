//! The pages of a slot are checked against a root.
ghost use Rattle.std.specs.Prelude.{◌≡◌, ◌≢◌, ◌⊎◌, ℕ, ◌+◌, ◌<◌, ◌≤◌, ◌==◌, ◌&&◌, nat_le, false, List, Ok, Err, length, drop};
ghost use Rattle.std.specs.Prelude.{IfOk, OnOk, OnErr, [], ◌∷◌};
ghost use Rattle.dg_slot.specs.Layout.{slots, most_pages, page_sector};
ghost use Rattle.dg_slot.specs.Pages.{page_in};
ghost use Rattle.dg_slot.specs.Kept.{Held, KeepsImage};
ghost use Rattle.dg_chain.specs.Chain.{IsPayload, chain, root_of, most_payload, pages_of_size, no_digest};
ghost use Rattle.dg_chain.specs.Checking.{answer_of, Collision, data_pages, is_same};
ghost use Rattle.dg_chain.specs.Answers.{IsKeptWhole, ChainAnswers, Walks, ChainEnds};

use crate::pages::{field_of, read_page, told_length};
use crate::wrapping::pages_of_size;
use crate::{DIGEST_SIZE, MOST_PAYLOAD};
use dg_nor::{Nor, Stopped};
use dg_object::PAGE_SIZE;
use dg_slot::{page_sector, read_descriptor};
use sha2::{Digest, Sha256};

/// Why the pages of a slot are not those that a root names.
#[derive(Clone, Copy, Debug, PartialEq, Eq)]
pub enum ChainFault {
    /// The chip stopped.
    Stopped,
    /// The first data page whose digest is not the one named before it, with both digests. Data page 1 has number 1.
    Broken {
        page: u8,
        kept: [u8; DIGEST_SIZE],
        found: [u8; DIGEST_SIZE],
    },
    /// No page is broken, but they are not the pages of the length that the first one gives, or the last one names another.
    Shape,
}

impl From<Stopped> for ChainFault {
    ghost use Rattle.std.specs.Prelude.{◌≡◌};
    ghost use Rattle.dg_chain.specs.declared.checking.ChainFault.TheVariants as fault;

    ghost from_gives = { λ _ e. e ≡ fault.Stopped };

    fn from(_stopped: Stopped) -> ChainFault {
        ChainFault::Stopped
    }
}

// How many data pages a slot has. The slot is whole.
fn count_of<N: Nor>(nor: &mut N, image: u8) -> Result<u8, ChainFault>
    requires known_image { image < slots }
    requires whole { IsKeptWhole (N.device nor.old).image image }
    ensures count { IfOk result (λ n. (h : Held) → KeepsImage (N.device nor.old).image image h → n + 1 ≡ length h.complete) }
    ensures some { IfOk result (λ n. 1 ≤ n) }
    ensures few { IfOk result (λ n. n < most_pages) }
    ensures awake { OnOk result ((N.device nor.old).stopped ≡ false) }
    ensures stopped { OnErr result (result ≡ Err ChainFault.Stopped) }
    ensures ends { ChainEnds result (N.device nor.old) (N.device nor.new) }
{
    let Some(first) = read_descriptor(nor, page_sector(image, 0))? else {
        return Err(ChainFault::Shape);
    };
    Ok(first.descriptor.pages - 1)
}

// The digest that a page carries, if it has the one that is kept of it.
fn pass_page<N: Nor>(
    nor: &mut N,
    image: u8,
    page: u8,
    kept: &[u8; DIGEST_SIZE],
) -> Result<[u8; DIGEST_SIZE], ChainFault>
    requires known_image { image < slots }
    requires known_page { page < most_pages }
    ensures passes { Walks kept.now page (page_in (N.device nor.old).image (page_sector image page) ∷ []) result }
    ensures ends { ChainEnds result (N.device nor.old) (N.device nor.new) }
{
    let mut bytes = [0; PAGE_SIZE];
    read_page(nor, image, page, &mut bytes)?;
    let found = Sha256::digest(bytes.as_slice());
    if found != *kept {
        return Err(ChainFault::Broken {
            page,
            kept: *kept,
            found,
        });
    }
    Ok(field_of(&bytes))
}

// The digest that the last of this many data pages carries, if each has the one that is named before it.
fn walk<N: Nor>(
    nor: &mut N,
    image: u8,
    count: u8,
    root: &[u8; DIGEST_SIZE],
) -> Result<[u8; DIGEST_SIZE], ChainFault>
    requires known_image { image < slots }
    requires some { 1 ≤ count }
    requires few { count < most_pages }
    ensures walks { Walks root.now 1 (data_pages (N.device nor.old).image image count) result }
    ensures ends { ChainEnds result (N.device nor.old) (N.device nor.new) }
{
    let mut kept = *root;
    for page in 1..count + 1 {
        kept = pass_page(nor, image, page, &kept)?;
    }
    Ok(kept)
}

// Whether this many pages, of which the last carries this digest, are those of a payload of that length.
fn is_shape(length: u32, count: u8, last: &[u8; DIGEST_SIZE]) -> bool
    ensures { result ≡ (nat_le 1 length && (nat_le length most_payload
        && ((count == pages_of_size length) && is_same last.now no_digest))) }
{
    if length == 0 || length as usize > MOST_PAYLOAD {
        return false;
    }
    usize::from(count) == pages_of_size(length as usize) && *last == [0; DIGEST_SIZE]
}

// The length of the payload that this many data pages hold, if they are the pages that a root names.
fn check_pages<N: Nor>(
    nor: &mut N,
    image: u8,
    count: u8,
    root: &[u8; DIGEST_SIZE],
) -> Result<u32, ChainFault>
    requires known_image { image < slots }
    requires some { 1 ≤ count }
    requires few { count < most_pages }
    ensures answer { ChainAnswers result (answer_of root.now (data_pages (N.device nor.old).image image count)) }
    ensures ends { ChainEnds result (N.device nor.old) (N.device nor.new) }
{
    let last = walk(nor, image, count, root)?;
    let length = told_length(nor, image)?;
    if !is_shape(length, count, &last) {
        return Err(ChainFault::Shape);
    }
    Ok(length)
}

/// The length of the payload that the data pages of a slot hold, if they are the pages that a root names. The slot is whole.
pub fn check<N: Nor>(nor: &mut N, image: u8, root: &[u8; DIGEST_SIZE]) -> Result<u32, ChainFault>
    requires known_image { image < slots }
    requires whole { IsKeptWhole (N.device nor.old).image image }
    ensures answer { (h : Held) → KeepsImage (N.device nor.old).image image h
        → ChainAnswers result (answer_of root.now (drop 1 h.complete)) }
    // Pages that pass the check against a payload's root are its pages, or two different ones at one index have one digest.
    ensures named { (x : List ℕ) (h : Held) → IsPayload x → root.now ≡ root_of x → KeepsImage (N.device nor.old).image image h
        → OnOk result ((drop 1 h.complete ≡ chain x) ⊎ Collision (drop 1 h.complete) (chain x)) }
    // Its own pages give its length.
    ensures own { (x : List ℕ) (h : Held) → IsPayload x → root.now ≡ root_of x → KeepsImage (N.device nor.old).image image h
        → drop 1 h.complete ≡ chain x
        → (result ≡ Ok (length x)) ⊎ (result ≡ Err ChainFault.Stopped) }
    ensures awake { result ≢ Err ChainFault.Stopped → (N.device nor.old).stopped ≡ false }
    ensures ends { ChainEnds result (N.device nor.old) (N.device nor.new) }
{
    let count = count_of(nor, image)?;
    check_pages(nor, image, count, root)
}
