//! A plan: the chip that was handed in, and the commands so far.
ghost use Rattle.std.specs.Prelude.{◌≡◌, ◌≤◌, length, take, false, Some, []};
ghost use Rattle.dg_nor.specs.Sizes.{chip_size};
ghost use Rattle.dg_nor.specs.Chip.{IsChip};
ghost use Rattle.dg_plan.specs.Commands.{CommandsFit, carried_out};

use crate::command::Command;

/// A chip that can be read in place, and what is to be done to it.
#[derive(Drop)]
pub struct Plan<'a> {
    pub(crate) chip: &'a [u8],
    pub(crate) commands: &'a mut [Command],
    /// How many commands there are so far.
    pub(crate) count: usize,
    /// The bytes that commands program.
    pub(crate) bytes: &'a mut [u8],
    /// How many of them are used.
    pub(crate) used: usize,
    /// Where the last bytes were read.
    pub(crate) last: u32,
    /// A command had no room.
    pub(crate) full: bool,
    /// The bytes of a command had no room.
    pub(crate) short: bool,
    ghost few: { count ≤ length commands.now },
    ghost within: { used ≤ length bytes.now },
    ghost most: { used ≤ 1048576 },
    ghost size: { length chip.now ≡ chip_size },
    ghost fit: { CommandsFit chip.now bytes.now used (take count commands.now) chip.now },
    ghost cells: { IsChip (carried_out bytes.now (take count commands.now) chip.now) },
}

impl<'a> Plan<'a> {
    ghost use Rattle.dg_plan.specs.Plans.{planned, commands_of, chip_of, plan_device};

    /// Nothing is to be done to the chip so far.
    pub fn new(chip: &'a [u8], commands: &'a mut [Command], bytes: &'a mut [u8]) -> Plan<'a>
        requires { length chip.now ≡ chip_size }
        ensures chip { chip_of result ≡ chip.now }
        ensures none { commands_of result ≡ [] }
        ensures same_commands { result.commands.ghost_name ≡ commands.entry.ghost_name }
        ensures same_bytes { result.bytes.ghost_name ≡ bytes.entry.ghost_name }
        ensures same { planned result ≡ chip.now }
        ensures awake { (plan_device result).stopped ≡ false }
        ensures room { (plan_device result).left ≡ Some (length commands.old) }
    {
        Plan {
            chip,
            commands,
            count: 0,
            bytes,
            used: 0,
            last: 0,
            full: false,
            short: false,
        }
    }

    /// How many commands there are.
    pub fn count(&self) -> usize
        ensures { result ≡ length (commands_of self.now) }
    {
        self.count
    }
}
