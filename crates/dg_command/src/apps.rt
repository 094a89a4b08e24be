//! The commands of `clap`, one for each verb, and the one for words without a verb.
ghost use Rattle.std.specs.Prelude.{◌≡◌, false, IfOk, map, Some};
ghost use Rattle.clap.specs.Words.{app_of, rule_of};
ghost use Rattle.dg_command.specs.Apps.{app_for, app_of_verb, flash_word, flash_words, form_option, number_option};
ghost use Rattle.dg_command.specs.Apps.{other_slot_option, root_option, rules_of, seed_option, slot_option, text_option, top_app};
ghost use Rattle.dg_command.specs.Apps.{version_option};

use crate::helps::notes;
use crate::ranges::{LEAST_MOTES, LEAST_PAGES, MOST_STEP, MOST_TURNS};
use crate::verbs::Verb;
use clap::{Arg, ArgAction, Command, value_parser};
use dg_base::MOST_MOTES;
use dg_control::{FORM, MOST_ROOM, OLD_FORM};
use dg_object::{MOST_PAGES, SLOTS};
use std::alloc::{AllocError, Global};

/// How the program is called.
pub(crate) const CALLED: &str = "deluge COMMAND [OPTIONS] [FLASH]..";

/// `clap` knows by it that there is a version to ask for. The line on it is written by `run` of `dg_cli`.
const VERSION: &str = "0.9";

const IMAGE: &str = "The image, 0 to 6; 0 is golden";

const NEW_IMAGE: &str = "The image, 1 to 6; 0 is golden, and is refused";

const TURNS: &str =
    "How many turns it takes, 1 to 1000000, of 16 to 50 ms each; replay takes a trace of about 700000 / motes";

const IN_MEMORY: &str = "The files of the chips; without any they are kept in memory";

const OF_MOTES: &str =
    "The files of the chips, one for each mote; without any, serve ends as over chips that are no volumes";

const VERBS: &str = "Chips:
  format --name NAME --used U [--form F] FLASH            make a chip with a golden image
  inject --image I --ver V --name NAME FLASH              put an image into a chip
  order --number K --image I --ver V FLASH                keep an order in a chip
  boot FLASH                                              start a chip
  ping FLASH                                              tell what a chip keeps
  dump --image I FLASH                                    write an image of a chip
  migrate FLASH                                           write a chip of form 1 in form 2

Rehearsal:
  replay [FLASH]..                                        replay a script over boards
  trial --motes N --pages P --seed S                      play a schedule that a seed makes

Service:
  serve --turns T --seed S [FLASH]..                      run the motes of a network profile
  base --id I --step D --seed S FLASH                     run a mote on a serial line

Hash chains:
  wrap                                                    make a hash-chained image
  receive --image I --ver V --name NAME --root HEX FLASH  put a hash-chained image into a chip
  check --image I --root HEX FLASH                        test an image of a chip against its root

Values:
  drip                                                    replay a script of small values

A command that fails ends with a status from 1 to 13, and standard error tells why.
A file of an older chip, with 679936 to 1085439 bytes, is lengthened as it is opened.
deluge COMMAND --help tells what it reads and writes; docs/COMMANDS.md tells all.";

/// An option that must be there, whose value is a number within bounds.
fn number<'a>(alloc: Global, name: &'a str, help: &'a str, low: u32, high: u32) -> Arg<'a>
    ensures { rule_of result ≡ number_option name.entry.now low high }
{
    Arg::new(alloc, name)
        .long(name)
        .help(help)
        .required(true)
        .action(ArgAction::Set)
        .value_parser(value_parser!(u32).range(i64::from(low)..=i64::from(high)))
}

/// An option that must be there, whose value is a text.
fn text<'a>(alloc: Global, name: &'a str, help: &'a str) -> Arg<'a>
    ensures { rule_of result ≡ text_option name.entry.now }
{
    Arg::new(alloc, name)
        .long(name)
        .help(help)
        .required(true)
        .action(ArgAction::Set)
}

/// The file of a chip.
fn flash<'a>(alloc: Global) -> Arg<'a>
    ensures { rule_of result ≡ flash_word }
{
    Arg::new(alloc, "FLASH")
        .help("The file of the chip")
        .required(true)
        .action(ArgAction::Set)
}

/// Files of chips, any number of them.
fn flashes<'a>(alloc: Global, help: &'a str) -> Arg<'a>
    ensures { rule_of result ≡ flash_words }
{
    Arg::new(alloc, "FLASH")
        .help(help)
        .action(ArgAction::Append)
}

/// The form in which a chip is written.
fn form<'a>(alloc: Global) -> Arg<'a>
    ensures { rule_of result ≡ form_option }
{
    Arg::new(alloc, "form")
        .long("form")
        .help("The form in which the chip is written, 1 or 2; 2 where none is given")
        .action(ArgAction::Set)
        .value_parser(value_parser!(u32).range(i64::from(OLD_FORM)..=i64::from(FORM)))
}

/// The number of an image that a chip has a slot for.
fn slot<'a>(alloc: Global, help: &'a str) -> Arg<'a>
    ensures { rule_of result ≡ slot_option }
{
    number(alloc, "image", help, 0, u32::from(SLOTS - 1))
}

/// The number of an image that a chip has a slot for, and that is not golden.
fn other_slot<'a>(alloc: Global) -> Arg<'a>
    ensures { rule_of result ≡ other_slot_option }
{
    number(alloc, "image", "The image, 1 to 6", 1, u32::from(SLOTS - 1))
}

/// The root of a chain.
fn root<'a>(alloc: Global) -> Arg<'a>
    ensures { rule_of result ≡ root_option }
{
    text(
        alloc,
        "root",
        "The root of the chain: the 64 hex digits that wrap wrote",
    )
}

/// A version.
fn version<'a>(alloc: Global) -> Arg<'a>
    ensures { rule_of result ≡ version_option }
{
    number(alloc, "ver", "The version, 1 to 4294967295", 1, u32::MAX)
}

/// A seed.
fn seed<'a>(alloc: Global) -> Arg<'a>
    ensures { rule_of result ≡ seed_option }
{
    number(
        alloc,
        "seed",
        "The number that all draws are made from, 0 to 4294967295",
        0,
        u32::MAX,
    )
}

/// What the words after a verb may be.
fn arguments<'a>(alloc: Global, verb: Verb) -> Result<Vec<Arg<'a>>, AllocError>
    ensures { IfOk result (λ v. map rule_of v.items ≡ rules_of verb) }
{
    match verb {
        Verb::Replay => Ok(vec![in alloc; flashes(alloc, IN_MEMORY)]?),
        Verb::Serve => serve_arguments(alloc),
        Verb::Format => format_arguments(alloc),
        Verb::Inject => inject_arguments(alloc),
        Verb::Order => order_arguments(alloc),
        Verb::Boot | Verb::Ping | Verb::Migrate => Ok(vec![in alloc; flash(alloc)]?),
        Verb::Dump => Ok(vec![in alloc; slot(alloc, IMAGE), flash(alloc)]?),
        Verb::Trial => trial_arguments(alloc),
        Verb::Wrap | Verb::Drip => Ok(Vec::new(alloc)),
        Verb::Check => Ok(vec![in alloc; slot(alloc, IMAGE), root(alloc), flash(alloc)]?),
        Verb::Receive => receive_arguments(alloc),
        Verb::Base => base_arguments(alloc),
    }
}

fn serve_arguments<'a>(alloc: Global) -> Result<Vec<Arg<'a>>, AllocError>
    ensures { IfOk result (λ v. map rule_of v.items ≡ rules_of Verb.Serve) }
{
    let turns = number(alloc, "turns", TURNS, 1, MOST_TURNS);
    Ok(vec![in alloc; turns, seed(alloc), flashes(alloc, OF_MOTES)]?)
}

fn format_arguments<'a>(alloc: Global) -> Result<Vec<Arg<'a>>, AllocError>
    ensures { IfOk result (λ v. map rule_of v.items ≡ rules_of Verb.Format) }
{
    let name = text(
        alloc,
        "name",
        "The name of the golden image: 1 to 16 letters, digits, _, - and .",
    );
    let used = number(
        alloc,
        "used",
        "The commits that are told as spent, 0 to 520223",
        0,
        MOST_ROOM,
    );
    Ok(vec![in alloc; name, used, form(alloc), flash(alloc)]?)
}

fn inject_arguments<'a>(alloc: Global) -> Result<Vec<Arg<'a>>, AllocError>
    ensures { IfOk result (λ v. map rule_of v.items ≡ rules_of Verb.Inject) }
{
    let name = text(
        alloc,
        "name",
        "The name of the image: 1 to 16 letters, digits, _, - and .",
    );
    Ok(vec![in alloc; slot(alloc, NEW_IMAGE), version(alloc), name, flash(alloc)]?)
}

fn order_arguments<'a>(alloc: Global) -> Result<Vec<Arg<'a>>, AllocError>
    ensures { IfOk result (λ v. map rule_of v.items ≡ rules_of Verb.Order) }
{
    let order = number(
        alloc,
        "number",
        "The number of the order, 1 to 4294967295",
        1,
        u32::MAX,
    );
    Ok(vec![in alloc; order, slot(alloc, IMAGE), version(alloc), flash(alloc)]?)
}

fn trial_arguments<'a>(alloc: Global) -> Result<Vec<Arg<'a>>, AllocError>
    ensures { IfOk result (λ v. map rule_of v.items ≡ rules_of Verb.Trial) }
{
    let motes = number(
        alloc,
        "motes",
        "How many motes there are, 2 to 16",
        u32::from(LEAST_MOTES),
        u32::from(MOST_MOTES),
    );
    let pages = number(
        alloc,
        "pages",
        "How many pages the image has, 2 to 65; its descriptor is one",
        u32::from(LEAST_PAGES),
        u32::from(MOST_PAGES),
    );
    Ok(vec![in alloc; motes, pages, seed(alloc)]?)
}

fn receive_arguments<'a>(alloc: Global) -> Result<Vec<Arg<'a>>, AllocError>
    ensures { IfOk result (λ v. map rule_of v.items ≡ rules_of Verb.Receive) }
{
    let name = text(
        alloc,
        "name",
        "The name of the image: 1 to 16 letters, digits, _, - and .",
    );
    Ok(vec![in alloc;
        other_slot(alloc),
        version(alloc),
        name,
        root(alloc),
        flash(alloc),
    ]?)
}

fn base_arguments<'a>(alloc: Global) -> Result<Vec<Arg<'a>>, AllocError>
    ensures { IfOk result (λ v. map rule_of v.items ≡ rules_of Verb.Base) }
{
    let id = number(
        alloc,
        "id",
        "The number of the mote, 0 to 65535",
        0,
        u32::from(u16::MAX),
    );
    let step = number(
        alloc,
        "step",
        "The milliseconds from one event to the next, 1 to 60000",
        1,
        MOST_STEP,
    );
    Ok(vec![in alloc; id, step, seed(alloc), flash(alloc)]?)
}

/// What a verb does, and how the program is called for it.
fn description<'a>(verb: Verb) -> (&'a str, &'a str) {
    match verb {
        Verb::Replay => ("deluge replay", "Replays a script over boards"),
        Verb::Serve => ("deluge serve", "Runs the motes of a profile"),
        Verb::Format => ("deluge format", "Makes a chip with a golden image"),
        Verb::Inject => ("deluge inject", "Puts an image into a chip"),
        Verb::Order => ("deluge order", "Keeps an order in a chip"),
        Verb::Boot => ("deluge boot", "Starts a chip, as a power-on does"),
        Verb::Ping => ("deluge ping", "Tells what a chip keeps"),
        Verb::Dump => ("deluge dump", "Writes an image of a chip as Intel HEX"),
        Verb::Migrate => ("deluge migrate", "Writes a chip of form 1 in form 2"),
        Verb::Trial => ("deluge trial", "Plays a schedule that a seed makes"),
        Verb::Wrap => ("deluge wrap", "Makes a hash-chained image of a payload"),
        Verb::Check => ("deluge check", "Tests an image of a chip against its root"),
        Verb::Receive => (
            "deluge receive",
            "Puts a hash-chained image into a chip, against its root",
        ),
        Verb::Drip => ("deluge drip", "Replays a script of small values"),
        Verb::Base => ("deluge base", "Runs a mote on a serial line"),
    }
}

/// The command of a verb.
fn verb_command<'a>(alloc: Global, verb: Verb) -> Result<Command<'a>, AllocError>
    ensures { IfOk result (λ c. app_of c ≡ app_of_verb verb) }
{
    let (called, does) = description(verb);
    let arguments = arguments(alloc, verb)?;
    let command = Command::new(alloc, verb.word())
        .about(does)
        .after_help(notes(verb))
        .bin_name(called)?;
    command.args(arguments)
}

/// The command for words without a verb.
fn top_command<'a>(alloc: Global) -> Command<'a>
    ensures { app_of result ≡ top_app }
{
    Command::new(alloc, "deluge")
        .about("Spreads images over motes, and keeps them on flash")
        .override_usage(CALLED)
        .after_help(VERBS)
        .version(VERSION)
        .no_binary_name(true)
}

/// The command for words that begin with a verb, or without one.
pub fn command_for<'a>(alloc: Global, verb: Option<Verb>) -> Result<Command<'a>, AllocError>
    ensures { IfOk result (λ c. app_of c ≡ app_for verb) }
{
    match verb {
        Some(verb) => verb_command(alloc, verb),
        None => Ok(top_command(alloc)),
    }
}
