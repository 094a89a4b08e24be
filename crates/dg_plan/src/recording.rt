//! The plan as a device.
ghost use Rattle.std.specs.Prelude.{◌≡◌, ◌==◌, ℕ, ◌+◌, ◌<◌, ◌≤◌, List, IsTrue, length};
ghost use Rattle.dg_words.specs.Cells.{part};
ghost use Rattle.dg_nor.specs.Sizes.{chip_size};
ghost use Rattle.dg_plan.specs.Commands.{CommandFits, command_done, laid_by, erase_kind, program_kind};
ghost use Rattle.dg_plan.specs.Plans.{planned, bytes_of_plan, chip_of, lent_of};

use crate::command::{COPY, Command, ERASE, PROGRAM};
use crate::plan::Plan;
use dg_boot::{COPY_PIECE, CopyPiece};
use dg_nor::{Nor, SECTOR_SIZE, Stopped};

/// A byte that is erased.
const ERASED: u8 = 0xFF;

/// The most bytes that commands of one plan program, so that a place among them is a `u32`.
const MOST_BYTES: usize = 1 << 20;

impl Nor for Plan<'_> {
    ghost use Rattle.dg_plan.specs.Plans.{plan_device};

    ghost device = { plan_device };

    fn is_stopped(&self) -> bool {
        self.full || self.short
    }

    fn read(&mut self, at: u32, into: &mut [u8]) -> Result<(), Stopped> {
        if self.is_stopped() {
            return Err(Stopped);
        }
        self.last = at;
        self.look(at as usize, into);
        Ok(())
    }

    fn program(&mut self, at: u32, bytes: &[u8]) -> Result<(), Stopped> {
        if self.is_stopped() {
            return Err(Stopped);
        }
        if self.count == self.commands.len() {
            self.full = true;
            return Err(Stopped);
        }
        let count = bytes.len() as u32;
        if self.copies(bytes) {
            let from = self.last;
            self.record(Command {
                kind: COPY,
                at,
                from,
                count,
            });
            return Ok(());
        }
        if self.bytes.len().min(MOST_BYTES) - self.used < bytes.len() {
            self.short = true;
            return Err(Stopped);
        }
        let from = self.keep(bytes);
        self.record(Command {
            kind: PROGRAM,
            at,
            from,
            count,
        });
        Ok(())
    }

    fn erase(&mut self, sector: u32) -> Result<(), Stopped> {
        if self.is_stopped() {
            return Err(Stopped);
        }
        if self.count == self.commands.len() {
            self.full = true;
            return Err(Stopped);
        }
        self.record(Command {
            kind: ERASE,
            at: SECTOR_SIZE * sector,
            from: 0,
            count: SECTOR_SIZE,
        });
        Ok(())
    }

    ghost is_chip = { λ p. p.cells };
}

impl Plan<'_> {
    /// The bytes from `at` on, as the commands so far leave them.
    fn look(&self, at: usize, into: &mut [u8])
        requires { at + length into.old ≤ chip_size }
        ensures { into.new ≡ part (planned self.now) at (length into.old) }
    {
        let commands = &*self.commands;
        let bytes = &*self.bytes;
        into.copy_from_slice(&self.chip[at..at + into.len()]);
        for k in 0..self.count {
            lay(&commands[k], self.chip, bytes, at, into);
        }
    }

    /// The bytes from `at` on in the chip that was handed in.
    fn look_at_handed(&self, at: usize, into: &mut [u8])
        requires { at + length into.old ≤ chip_size }
        ensures { into.new ≡ part (chip_of self.now) at (length into.old) }
    {
        into.copy_from_slice(&self.chip[at..at + into.len()]);
    }

    /// Whether the bytes are a piece of a copy, which was read last and is the same in the chip that was handed in.
    fn copies(&self, bytes: &[u8]) -> bool
        ensures within { IsTrue result → self.now.last + length bytes.now ≤ chip_size }
        ensures same { IsTrue result → bytes.now ≡ part (chip_of self.now) self.now.last (length bytes.now) }
        ensures planned { IsTrue result → bytes.now ≡ part (planned self.now) self.now.last (length bytes.now) }
    {
        let from = self.last as usize;
        if bytes.len() != COPY_PIECE as usize || from + bytes.len() > self.chip.len() {
            return false;
        }
        let mut piece: CopyPiece = [0; COPY_PIECE as usize];
        let mut handed: CopyPiece = [0; COPY_PIECE as usize];
        self.look(from, &mut piece);
        self.look_at_handed(from, &mut handed);
        piece.as_slice() == bytes && handed.as_slice() == bytes
    }

    /// Puts a command after the others.
    fn record(&mut self, command: Command)
        requires room { self.old.count < length self.old.commands.now }
        requires fits { CommandFits (chip_of self.old) self.old.used command (planned self.old) }
        ensures planned { planned self.new ≡ command_done (bytes_of_plan self.old) command (planned self.old) }
        ensures count { self.new.count ≡ self.old.count + 1 }
        ensures size { length self.new.commands.now ≡ length self.old.commands.now }
        ensures same_lent { lent_of self.new ≡ lent_of self.old }
        ensures full { self.new.full ≡ self.old.full }
        ensures short { self.new.short ≡ self.old.short }
    {
        self.commands[self.count] = command;
        self.count += 1;
    }

    /// Keeps bytes after those that are used, and returns where.
    fn keep(&mut self, bytes: &[u8]) -> u32
        requires room { self.old.used + length bytes.now ≤ length self.old.bytes.now }
        requires most { self.old.used + length bytes.now ≤ 1048576 }
        ensures place { result ≡ self.old.used }
        ensures stands { part (bytes_of_plan self.new) result (length bytes.now) ≡ bytes.now }
        ensures used { self.new.used ≡ self.old.used + length bytes.now }
        ensures planned { planned self.new ≡ planned self.old }
        ensures chip { chip_of self.new ≡ chip_of self.old }
        ensures count { self.new.count ≡ self.old.count }
        ensures size { length self.new.commands.now ≡ length self.old.commands.now }
        ensures same_lent { lent_of self.new ≡ lent_of self.old }
        ensures full { self.new.full ≡ self.old.full }
        ensures short { self.new.short ≡ self.old.short }
    {
        let from = self.used;
        self.bytes[from..from + bytes.len()].copy_from_slice(bytes);
        self.used += bytes.len();
        from as u32
    }
}

/// What a command leaves of the bytes of a chip from `at` on. Before it they are as the commands before it left them.
fn lay(command: &Command, chip: &[u8], bytes: &[u8], at: usize, into: &mut [u8])
    requires whole { length chip.now ≡ chip_size }
    requires fits { (image : List ℕ) × (used : ℕ) × (used ≤ length bytes.now)
        × CommandFits chip.now used command.now image }
    ensures { (image : List ℕ) (used : ℕ) → used ≤ length bytes.now → length image ≡ chip_size
        → CommandFits chip.now used command.now image → at + length into.old ≤ chip_size
        → into.old ≡ part image at (length into.old)
        → into.new ≡ part (command_done bytes.now command.now image) at (length into.old) }
{
    let begin = command.at as usize;
    let end = begin + command.count as usize;
    let first = begin.saturating_sub(at);
    let last = end.saturating_sub(at).min(into.len()).max(first);
    for j in first..last {
        into[j] = laid(command, chip, bytes, at + j - begin, into[j]);
    }
}

/// What a command leaves of a byte that is `offset` bytes into its range.
fn laid(command: &Command, chip: &[u8], bytes: &[u8], offset: usize, old: u8) -> u8
    requires known { offset < command.now.count }
    requires whole { length chip.now ≡ chip_size }
    requires fits { (image : List ℕ) × (used : ℕ) × (used ≤ length bytes.now)
        × CommandFits chip.now used command.now image }
    ensures { result ≡ laid_by (command.now.kind == erase_kind) (command.now.kind == program_kind) chip.now bytes.now command.now
        offset old }
{
    let from = command.from as usize + offset;
    if command.kind == ERASE {
        ERASED
    } else if command.kind == PROGRAM {
        old & bytes[from]
    } else {
        old & chip[from]
    }
}
