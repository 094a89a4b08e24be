//! Laws of the sizes of a chip, and of a board on a file. The functions do nothing: their contracts are the laws.
ghost use Rattle.std.specs.Prelude.{◌≡◌, IfSome};
ghost use Rattle.dg_nor.specs.Sizes.{sectors, sector_size, chip_size, old_sectors, old_chip_size};
ghost use Rattle.dg_nor.specs.Board.{board_image, file_of};

use crate::{Board, CHIP_SIZE, OLD_CHIP_SIZE, OLD_SECTORS, SECTOR_SIZE, SECTORS};

/// The constants of this crate are the numbers of its definitions.
pub fn a_chip_has_these_sizes()
    ensures sectors { SECTORS ≡ sectors }
    ensures sector { SECTOR_SIZE ≡ sector_size }
    ensures chip { CHIP_SIZE ≡ chip_size }
    ensures old_sectors { OLD_SECTORS ≡ old_sectors }
    ensures old_chip { OLD_CHIP_SIZE ≡ old_chip_size }
{}

/// At every moment the file of a board that did not fail was given exactly the bytes of the chip.
pub fn a_file_has_the_bytes_of_its_board(_board: &Board)
    ensures { IfSome (file_of _board.now) (λ bytes. bytes ≡ board_image _board.now) }
{}
