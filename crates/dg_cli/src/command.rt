//! The top call.
ghost use Rattle.std.specs.Prelude.{◌≡◌, ◌≢◌, ◌≤◌, map, string_bytes};
ghost use Rattle.dg_mote.specs.Sizes.{buffered_bytes, BuffersFit, ValuesAreSmall};
ghost use Rattle.dg_words.specs.Counts.{Rose};
ghost use Rattle.dg_outside.specs.Outside.{input_of, output_of, link_state, outside};
ghost use Rattle.dg_command.specs.Asking.{asked_of};
ghost use Rattle.dg_cli.specs.Commands.{CommandDone, ReadsInput, UsesLink};

use crate::dispatch::dispatch;
use crate::help::{tell_help, tell_usage, tell_version};
use dg_base::{Clock, Sink, Source, Status};
use dg_command::{Asked, asked};
use dg_link::Link;
use dg_mote::a_mote_buffers_little;
use dg_nor::Nor;
use std::alloc::{AllocError, Global};

/// Does all that the program does with the words after its name, and answers how it ended.
///
/// `replay` replays the script that `input` spells over the boards, which are formatted with its `golden` line and used as they
/// are with its `boards` line, and writes the report to `out`. `serve` runs the motes of the network profile that `input` spells
/// over them, the link and the clock, and writes what happens as a script. `trial` plays the schedule that a seed makes over
/// them. `format`, `inject`, `order`, `boot`, `ping`, `dump`, `migrate`, `check` and `receive` work on the first board. `wrap`
/// and `drip` use no board: they make a hash-chained image of `input`, and replay the script of nodes that it spells. `--help`
/// writes a text that is not empty, and `--version` its line. All other words are [`Status::Usage`]. A status other than
/// [`Status::Done`] writes its line last, where it has one.
pub fn run<S: Source, K: Sink, N: Nor, L: Link, C: Clock>(
    alloc: Global,
    words: &Vec<String>,
    input: &mut S,
    out: &mut K,
    boards: &mut Vec<N>,
    link: &mut L,
    clock: &mut C,
) -> Status
    // Each command does what its rules say. A replay's report is true, whatever frames are brought from outside: it is that
    // of a run of the rules over the items of the script. Each status comes where the rules say. What was played keeps all
    // parts of the headline, and a script in its limits is replayed to its end, unless memory runs out or the outside fails.
    ensures does { CommandDone (asked_of (map string_bytes words.now.items)) result
        (outside (input_of (S.Source, input.old)) (output_of (K.Sink, out.old)) (link_state (L.Link, link.old))
        (C.told clock.old) (map N.device boards.old.items))
        (outside (input_of (S.Source, input.new)) (output_of (K.Sink, out.new)) (link_state (L.Link, link.new))
        (C.told clock.new) (map N.device boards.new.items)) }
    // The arrays of bytes that a mote and its calls name have 220 bytes by their types (`counted`), which are 214 where packet
    // sets are counted in their byte form. Those that are alive together in one call, or in a mount, have no more than 256 by
    // their types. A mote's value has at most 464 bytes of memory, and its outbox 80.
    ensures buffers { (buffered_bytes ≡ 214) × BuffersFit × ValuesAreSmall }
    // A command that reads no input leaves it untouched. Only `serve` uses the link and the clock.
    ensures untouched { (ReadsInput (asked_of (map string_bytes words.now.items)) → ⊥) → input.new ≡ input.old }
    ensures apart { (UsesLink (asked_of (map string_bytes words.now.items)) → ⊥) → (link.new ≡ link.old)
        × (clock.new ≡ clock.old) }
    // A fault of the link is reported exactly if one of its calls failed.
    ensures link_fault { result ≡ Status.LinkFault → Rose (L.faults link.old) (L.faults link.new) }
    ensures unfailed { result ≢ Status.LinkFault → L.faults link.new ≡ L.faults link.old }
    ensures reads { S.faults input.old ≤ S.faults input.new }
    ensures writes { K.faults out.old ≤ K.faults out.new }
    ensures sends { L.faults link.old ≤ L.faults link.new }
{
    a_mote_buffers_little();
    match asked(alloc, words) {
        Ok(Asked::Command(command)) => dispatch(alloc, &command, input, out, boards, link, clock),
        Ok(Asked::Help(text)) => tell_help(out, text.as_str()),
        Ok(Asked::Version) => tell_version(out),
        Ok(Asked::Usage) => tell_usage(out),
        Err(AllocError) => Status::Memory,
    }
}
