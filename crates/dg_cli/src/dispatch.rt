//! Carrying out a command.
ghost use Rattle.std.specs.Prelude.{◌≡◌, ◌≢◌, ◌≤◌, true, map};
ghost use Rattle.dg_words.specs.Counts.{Rose};
ghost use Rattle.dg_outside.specs.Outside.{input_of, output_of, link_state, outside};
ghost use Rattle.dg_command.specs.Asking.{Asks, said_of_command, is_well_formed};
ghost use Rattle.dg_command.specs.Bounds.{IsInBounds};
ghost use Rattle.dg_cli.specs.Commands.{CommandOutcome, ReadsInput, UsesLink};

use crate::base::base;
use crate::chain::{check, receive};
use crate::migrate::migrate;
use dg_base::{Clock, Sink, Source, Status};
use dg_command::Command;
use dg_drip_run::drip;
use dg_link::Link;
use dg_nor::Nor;
use dg_replay::{Unwatched, replay};
use dg_serve::{serve_network, services_keep_the_rules};
use dg_trial::trial;
use std::alloc::Global;

/// Carries out a command.
pub(crate) fn dispatch<S: Source, K: Sink, N: Nor, L: Link, C: Clock>(
    alloc: Global,
    command: &Command,
    input: &mut S,
    out: &mut K,
    boards: &mut Vec<N>,
    link: &mut L,
    clock: &mut C,
) -> Status
    requires ranges { IsInBounds (said_of_command command.now) }
    requires formed { is_well_formed (said_of_command command.now) ≡ true }
    ensures done { CommandOutcome (said_of_command command.now) result
        (outside (input_of (S.Source, input.old)) (output_of (K.Sink, out.old)) (link_state (L.Link, link.old))
        (C.told clock.old) (map N.device boards.old.items))
        (outside (input_of (S.Source, input.new)) (output_of (K.Sink, out.new)) (link_state (L.Link, link.new))
        (C.told clock.new) (map N.device boards.new.items)) }
    ensures untouched { (ReadsInput (Asks (said_of_command command.now)) → ⊥) → input.new ≡ input.old }
    ensures apart { (UsesLink (Asks (said_of_command command.now)) → ⊥) → (link.new ≡ link.old) × (clock.new ≡ clock.old) }
    ensures link_fault { result ≡ Status.LinkFault → Rose (L.faults link.old) (L.faults link.new) }
    ensures unfailed { result ≢ Status.LinkFault → L.faults link.new ≡ L.faults link.old }
    ensures reads { S.faults input.old ≤ S.faults input.new }
    ensures writes { K.faults out.old ≤ K.faults out.new }
    ensures sends { L.faults link.old ≤ L.faults link.new }
{
    services_keep_the_rules();
    match command {
        Command::Replay { .. } => replay(alloc, input, out, boards, &mut Unwatched),
        Command::Serve { turns, seed, .. } => {
            serve_network(alloc, input, boards, link, clock, *seed, *turns, out)
        }
        Command::Format {
            name,
            used,
            form,
            ..
        } => dg_tool::format(alloc, name.as_bytes(), *used, *form, input, out, boards),
        Command::Inject {
            image,
            version,
            name,
            ..
        } => dg_tool::inject(alloc, *image, *version, name.as_bytes(), input, out, boards),
        Command::Order { order, .. } => dg_tool::order(alloc, order, out, boards),
        Command::Boot { .. } => dg_tool::boot(alloc, out, boards),
        Command::Ping { .. } => dg_tool::ping(alloc, out, boards),
        Command::Dump { image, .. } => dg_tool::dump(alloc, *image, out, boards),
        Command::Migrate { .. } => migrate(alloc, out, boards),
        Command::Trial { motes, pages, seed } => trial(alloc, *motes, *pages, *seed, out, boards),
        Command::Wrap => dg_chain_tool::wrap(alloc, input, out),
        Command::Check { image, root, .. } => check(alloc, *image, root.as_bytes(), out, boards),
        Command::Receive {
            image,
            version,
            name,
            root,
            ..
        } => {
            let named = name.as_bytes();
            let digits = root.as_bytes();
            receive(alloc, *image, *version, named, digits, input, out, boards)
        }
        Command::Drip => drip(alloc, input, out),
        Command::Base { id, step, seed, .. } => base(alloc, *id, *step, *seed, input, out, boards),
    }
}
