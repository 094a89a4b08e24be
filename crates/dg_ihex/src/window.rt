//! The bytes that records gave, by their addresses.
ghost use Rattle.std.specs.Prelude.{◌≡◌, ℕ, None, slice_index_or, ◌+◌, ◌-◌, ◌≤◌, ◌<◌, ◌%◌, ◌^◌, List, ◌++◌, [], ◌∷◌, false};
ghost use Rattle.std.specs.Prelude.{length, min, max, IfOk, OnOk};
ghost use Rattle.dg_ihex.specs.Blocks.{Block, byte_at, image_of_blocks, overlaps, span_of};
ghost use Rattle.dg_ihex.specs.Cells.{cells_written};
ghost use Rattle.dg_ihex.specs.Sizes.{longest_image, addresses};

use dg_base::MOST_CONTENT;
use std::alloc::{AllocError, Global};

/// The most bytes of an image.
pub const LONGEST_IMAGE: usize = MOST_CONTENT;

/// An address above all addresses.
pub(crate) const NO_ADDRESS: usize = 4_294_967_296;

/// The byte at addresses that no record gives: what an erased chip has.
pub(crate) const GAP_BYTE: u8 = 0xff;

/// Bytes at addresses of which no two are further apart than the longest image. So the addresses
/// differ modulo its length, and that number is the cell of a byte, counted from the address that
/// was given first. There are as many cells as the addresses so far need.
#[derive(Debug, Drop)]
pub struct Window {
    cells: Vec<Option<u8>>,
    // What is added to an address, so that the first that was given has the first cell.
    shift: usize,
    // The lowest address, and the one after the highest.
    lowest: usize,
    past: usize,

    ghost few: { cells.len ≤ longest_image },
    ghost shifted: { shift ≤ longest_image },
    ghost low: { lowest ≤ addresses },
}

impl Window {
    ghost use Rattle.dg_ihex.specs.Windows.{Holds};

    /// A window with no bytes.
    pub fn new(alloc: Global) -> Window
        ensures { Holds result [] }
    {
        Window {
            cells: Vec::new(alloc),
            shift: 0,
            lowest: NO_ADDRESS,
            past: 0,
        }
    }

    // The byte at an address, if one was given.
    fn byte_at(&self, address: usize) -> Option<u8>
        ensures { (blocks : List Block) → Holds self.now blocks → result ≡ byte_at blocks address }
    {
        if address < self.lowest {
            return None;
        }
        if address >= self.past {
            return None;
        }
        cell_at(
            &self.cells,
            (address % LONGEST_IMAGE + self.shift) % LONGEST_IMAGE,
        )
    }

    /// Whether a block has an address that was given before.
    pub fn overlaps(&self, address: usize, bytes: &[u8]) -> bool
        requires { address < addresses }
        ensures { (blocks : List Block) → Holds self.now blocks
            → result ≡ overlaps blocks (record { address = address; bytes = bytes.now }) }
    {
        for at in address..address + bytes.len() {
            if self.byte_at(at).is_some() {
                return true;
            }
        }
        false
    }

    /// How far the addresses reach with a block.
    pub fn span_with(&self, address: usize, bytes: &[u8]) -> usize
        requires { address < addresses }
        ensures { (blocks : List Block) → Holds self.now blocks
            → result ≡ span_of (blocks ++ record { address = address; bytes = bytes.now } ∷ []) }
    {
        let past = self.past.max(address + bytes.len());
        past.saturating_sub(self.lowest.min(address))
    }

    /// Adds the bytes of a block.
    pub fn give(&mut self, address: usize, bytes: &[u8]) -> Result<(), AllocError>
        requires { address < addresses }
        ensures { (blocks : List Block) → Holds self.old blocks
            → let block : Block = record { address = address; bytes = bytes.now } in
            overlaps blocks block ≡ false → span_of (blocks ++ block ∷ []) ≤ longest_image
            → OnOk result (Holds self.new (blocks ++ block ∷ [])) }
    {
        self.begin_at(address);
        self.reach(address, bytes.len())?;
        self.put(address, bytes);
        Ok(())
    }

    // Gives the first cell to an address, if no other address has it.
    fn begin_at(&mut self, address: usize)
        ensures { (blocks : List Block) → Holds self.old blocks → Holds self.new blocks }
    {
        if self.cells.is_empty() {
            self.shift = LONGEST_IMAGE - address % LONGEST_IMAGE;
        }
    }

    // Makes a cell for each of this many addresses, if it is missing.
    fn reach(&mut self, address: usize, count: usize) -> Result<(), AllocError>
        requires { address < addresses }
        ensures holds { (blocks : List Block) → Holds self.old blocks → OnOk result (Holds self.new blocks) }
        ensures within { OnOk result ((k : ℕ) → k < count → (address + self.new.shift + k) % longest_image < self.new.cells.len) }
    {
        let first = (address + self.shift) % LONGEST_IMAGE;
        let needed = first.saturating_add(count).min(LONGEST_IMAGE);
        if needed > self.cells.len() {
            self.cells.resize(needed, None)?;
        }
        Ok(())
    }

    // Writes the bytes of a block, for which there are cells.
    fn put(&mut self, address: usize, bytes: &[u8])
        requires fits { address < addresses }
        requires within { (k : ℕ) → k < length bytes.now → (address + self.old.shift + k) % longest_image < self.old.cells.len }
        ensures { (blocks : List Block) → Holds self.old blocks
            → let block : Block = record { address = address; bytes = bytes.now } in
            overlaps blocks block ≡ false → span_of (blocks ++ block ∷ []) ≤ longest_image
            → Holds self.new (blocks ++ block ∷ []) }
    {
        self.lowest = self.lowest.min(address);
        self.past = self.past.max(address + bytes.len());
        write(&mut self.cells, address + self.shift, bytes);
    }

    /// The image from the lowest address to the highest.
    pub fn image(&self, alloc: Global) -> Result<Vec<u8>, AllocError>
        ensures { (blocks : List Block) → Holds self.now blocks → IfOk result (λ image. image.items ≡ image_of_blocks blocks) }
    {
        let mut image = vec![in alloc; GAP_BYTE; self.past.saturating_sub(self.lowest)]?;
        self.fill(&mut image);
        Ok(image)
    }

    // Writes the bytes from the lowest address on.
    fn fill(&self, image: &mut [u8])
        ensures { (blocks : List Block) → Holds self.now blocks → length image.old ≡ span_of blocks
            → image.new ≡ image_of_blocks blocks }
    {
        for at in 0..image.len() {
            image[at] = self.byte_at(self.lowest + at).unwrap_or(GAP_BYTE);
        }
    }
}

// The byte in a cell, if it has one. A missing cell has no byte.
fn cell_at(cells: &[Option<u8>], cell: usize) -> Option<u8>
    ensures { result ≡ slice_index_or cells.now cell None }
{
    if cell < cells.len() {
        cells[cell]
    } else {
        None
    }
}

// Writes the bytes of a block into their cells.
fn write(cells: &mut [Option<u8>], from: usize, bytes: &[u8])
    requires fits { from < addresses + longest_image + 1 }
    requires within { (k : ℕ) → k < length bytes.now → (from + k) % longest_image < length cells.old }
    ensures { cells.new ≡ cells_written cells.old from bytes.now }
{
    for at in 0..bytes.len() {
        cells[(from + at) % LONGEST_IMAGE] = Some(bytes[at]);
    }
}
