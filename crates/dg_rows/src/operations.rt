//! The operations that a command makes on a chip, as a row lists them.
ghost use Rattle.std.specs.Prelude.{◌≡◌, ◌+◌, ◌<◌, ◌≤◌, true, length};
ghost use Rattle.dg_nor.specs.Sizes.{sector_size};

use crate::chips::{CELLS, Chip, are_same};
use crate::outside::MASK_SIZE;
use crate::row::{Came, Row};
use crate::runner::Runner;
use crate::turns::Turn;
use dg_base::{Status, parse_hex, parse_u32};
use dg_nor::{Board, Fused, Nor, SECTORS, Stopped, erase_sector, program_in};
use std::alloc::{AllocError, Global};

/// An operation on a chip.
#[derive(Drop)]
pub(crate) enum Operation {
    Erase {
        sector: u32,
    },
    Program {
        sector: u32,
        at: u32,
        bytes: Vec<u8>,
    },
}

/// The operation of a line, if it has one: `erase SECTOR`, or `program SECTOR AT HEX`.
pub(crate) fn operation_of(alloc: Global, head: &str, rest: &str) -> Option<Operation> {
    let mut words = rest.split(' ');
    let sector = parse_u32(words.next()?.as_bytes())?;
    match (head, words.next(), words.next()) {
        ("erase", None, None) => Some(Operation::Erase { sector }),
        ("program", Some(at), Some(hex)) => {
            let at = parse_u32(at.as_bytes())?;
            let bytes = parse_hex(alloc, hex.as_bytes()).ok()?;
            Some(Operation::Program { sector, at, bytes })
        }
        _ => None,
    }
}

impl Operation {
    /// Makes it on a chip. One outside of a chip is refused.
    fn make<N: Nor>(&self, nor: &mut N) -> Result<(), Stopped> {
        match self {
            Operation::Erase { sector } if *sector < SECTORS => erase_sector(nor, *sector),
            Operation::Program { sector, at, bytes } if *sector < SECTORS && fits(*at, bytes) =>
                program_in(nor, *sector, *at, bytes),
            _ => Err(Stopped),
        }
    }
}

/// Whether some bytes fit into a sector from there on.
fn fits(at: u32, bytes: &[u8]) -> bool
    ensures some { result ≡ true → 0 < length bytes.now }
    ensures in_sector { result ≡ true → at + length bytes.now ≤ sector_size }
{
    !bytes.is_empty() && bytes.len() <= CELLS && at as usize <= CELLS - bytes.len()
}

/// Makes operations on a chip that stops at the one of this number. It answers whether it stopped.
fn stops(board: &mut Board, operations: &[Operation], number: u32, mask: &[u8; MASK_SIZE]) -> bool {
    let mut fused = Fused::new(board, Some(number.max(1)), mask);
    for operation in operations {
        if operation.make(&mut fused).is_err() {
            return true;
        }
    }
    false
}

impl Row {
    /// Plays the row over a copy of a chip that stops in the turn. It answers the outcome, and whether the chip holds what the
    /// listed operations leave if they stop there.
    pub(crate) fn play_listed<R: Runner>(
        &self,
        alloc: Global,
        runner: &R,
        turn: &Turn,
        chip: &Chip,
    ) -> Result<(Came, bool), AllocError> {
        let mut chips = Vec::new(alloc);
        chips.push(Chip {
            name: chip.name.clone()?,
            board: chip.board.copy(alloc)?,
        })?;
        let mut listed = chip.board.copy(alloc)?;
        let outside = &turn.outside;
        let came = self.play(alloc, runner, outside, &mut chips)?;
        let stopped = stops(&mut listed, &self.operations, outside.stop, &outside.mask);
        let mut right = stopped == (turn.status == u32::from(Status::FlashFault.code()));
        for chip in chips.iter_mut() {
            right = right && are_same(&mut chip.board, &mut listed).unwrap_or(false);
        }
        Ok((came, right))
    }
}
