//! What the command line asks for.
ghost use Rattle.std.specs.Prelude.{◌≡◌, IfOk, codes, false, option_map};
ghost use Rattle.gh_command.specs.CommandLine.{budget, check, command_line, list, no_options, option_of, replay_options, required, script_options, seed, size, texts};
ghost use Rattle.gh_command.specs.CommandLine.Value.{Number};
ghost use Rattle.gh_command.specs.CommandLineParser.{found_check, found_line, found_list, found_number, found_replay, found_script};
ghost use Rattle.gh_command.specs.CommandLineParser.{goheap_app, goheap_reading, goheap_top, option_rule, subcommand_shape};
ghost use Rattle.gh_command.specs.declared.line.Line.TheVariants.{Gen, Soak};
ghost use Rattle.clap.specs.Words.{app_of, found_of, rows_of, rule_of, shape_of, subcommand_rows_of};
ghost use Rattle.clap.specs.declared.builder.command.Command.TheViews.{out-Command as fields_of};

use clap::builder::ValueParser;
use clap::error::ErrorKind;
use clap::{Arg, ArgAction, ArgMatches, Command};
use gh_replay::{Schedule, Turn, parse_list};
use std::alloc::{AllocError, Global};

/// What the command line asks for.
#[derive(Debug, Drop)]
pub enum Line {
    /// Run the statements of a script in threads.
    Run,
    /// Run the statements of a script, as the schedule says, in at most `budget` turns.
    Replay {
        /// Who steps when: it says nothing where the words say nothing.
        schedule: Schedule,
        /// How many turns a run may take: 1 to 1,000,000,000, and 50,000,000 where the words say
        /// nothing.
        budget: u64,
        /// The heap that never frees is run beside the script.
        check: bool,
    },
    /// Write the script that is generated from a seed.
    Gen {
        /// Any number.
        seed: u64,
        /// The script has 4 · (size / 4) statements, repetitions written out: 4 to 200,000.
        size: u64,
    },
    /// Run the script that is generated from a seed in threads.
    Soak {
        /// As of `Gen`.
        seed: u64,
        /// As of `Gen`.
        size: u64,
    },
    /// Verify a dump of a heap.
    Verify,
}

/// What the words ask for, the first of them the program's name: none where the command does not
/// take them. It takes
///
/// - `run` and `verify`;
/// - `replay`, with at most one each of `--seed n`, `--list text`, `--budget n` and `--check`;
/// - `gen` and `soak`, each with one `--seed n` and one `--size n`.
///
/// Options stand in any order, or as `--seed=n` and so on, where `n` is decimal digits after at most one plus sign and
/// `text` spells a list ([`parse_list`]). A seed is any number below 2 ^ 64, a budget 1 to 1,000,000,000, a size 4 to
/// 200,000. One `--` may end the line. A request for help or for the version is refused like any other word. The only
/// error is want of memory.
pub fn read_line(alloc: Global, words: &[&str]) -> Result<Option<Line>, AllocError>
    ensures { IfOk result (λ line. line ≡ command_line (texts words.now)) }
{
    let command = goheap_command(alloc)?;
    match command.try_get_matches_from(words) {
        Ok(matches) => line_in(alloc, &matches),
        Err(error) => match error.kind() {
            ErrorKind::OutOfMemory => Err(AllocError),
            _ => Ok(None),
        },
    }
}

// The line that the matches of the command say.
fn line_in(alloc: Global, matches: &ArgMatches<'_>) -> Result<Option<Line>, AllocError>
    ensures { IfOk result (λ line. line ≡ found_line (subcommand_rows_of matches.now)) }
{
    let (name, found) = match matches.subcommand() {
        Some(entered) => entered,
        None => return Ok(None),
    };
    match name {
        "run" => Ok(Some(Line::Run)),
        "replay" => replay_in(alloc, found),
        "gen" => Ok(gen_in(found)),
        "soak" => Ok(soak_in(found)),
        "verify" => Ok(Some(Line::Verify)),
        _ => Ok(None),
    }
}

// The line that the matches of `replay` say.
fn replay_in(alloc: Global, found: &ArgMatches<'_>) -> Result<Option<Line>, AllocError>
    ensures { IfOk result (λ line. line ≡ found_replay (rows_of (found_of found.now))) }
{
    let seed = number_in(found, "seed");
    let budget = match number_in(found, "budget") {
        Some(budget) => budget,
        None => return Ok(None),
    };
    match list_in(alloc, found)? {
        Some(list) => Ok(Some(Line::Replay {
            schedule: Schedule { list, seed },
            budget,
            check: check_in(found),
        })),
        None => Ok(None),
    }
}

// The line that the matches of `gen` say.
fn gen_in(found: &ArgMatches<'_>) -> Option<Line>
    ensures { result ≡ found_script Gen (rows_of (found_of found.now)) }
{
    let seed = number_in(found, "seed")?;
    let size = number_in(found, "size")?;
    Some(Line::Gen { seed, size })
}

// The line that the matches of `soak` say.
fn soak_in(found: &ArgMatches<'_>) -> Option<Line>
    ensures { result ≡ found_script Soak (rows_of (found_of found.now)) }
{
    let seed = number_in(found, "seed")?;
    let size = number_in(found, "size")?;
    Some(Line::Soak { seed, size })
}

// The list that the matches of `replay` have: the empty one where they have no text.
fn list_in(alloc: Global, found: &ArgMatches<'_>) -> Result<Option<Vec<Turn>>, AllocError>
    ensures { IfOk result (λ list. option_map (λ turns. turns.items) list ≡ found_list (rows_of (found_of found.now))) }
{
    match found.get_str("list") {
        Some(text) => parse_list(alloc, text),
        None => Ok(Some(Vec::new(alloc))),
    }
}

// The matches of `replay` have the flag `--check`.
fn check_in(found: &ArgMatches<'_>) -> bool
    ensures { result ≡ found_check (rows_of (found_of found.now)) }
{
    match found.get_str("check") {
        Some(value) => value == "true",
        None => false,
    }
}

// The number that the matches have for an option.
fn number_in(found: &ArgMatches<'_>, name: &str) -> Option<u64>
    ensures { result ≡ found_number name.now (rows_of (found_of found.now)) }
{
    found.get_one::<u64>(name)
}

// The command: its subcommands, one of which is required, and no help or version.
fn goheap_command<'a>(alloc: Global) -> Result<Command<'a>, AllocError>
    ensures { IfOk result (λ command. app_of command ≡ goheap_app) }
{
    let generate = script_command(alloc, "gen")?;
    let soak = script_command(alloc, "soak")?;
    let command = reading_command(alloc)?
        .subcommand(generate)?
        .subcommand(soak)?;
    Ok(command)
}

// The command with the subcommands that read a text.
fn reading_command<'a>(alloc: Global) -> Result<Command<'a>, AllocError>
    ensures { IfOk result (λ command. app_of command ≡ goheap_reading) }
{
    let replay = replay_command(alloc)?;
    let command = bare_command(alloc)
        .subcommand(plain_command(alloc, "run"))?
        .subcommand(replay)?
        .subcommand(plain_command(alloc, "verify"))?;
    Ok(command)
}

// The command without its subcommands.
fn bare_command<'a>(alloc: Global) -> Command<'a>
    ensures { app_of result ≡ goheap_top }
{
    Command::new(alloc, "goheap")
        .subcommand_required(true)
        .disable_help_flag(true)
        .disable_help_subcommand(true)
        .disable_version_flag(true)
}

// The subcommand of this name, which has no options.
fn plain_command<'a>(alloc: Global, name: &'a str) -> Command<'a>
    ensures shape { shape_of result ≡ subcommand_shape name.entry.now no_options }
    ensures local { (fields_of result).has_globals ≡ false }
{
    Command::new(alloc, name)
}

// The subcommand `replay`, with its options.
fn replay_command<'a>(alloc: Global) -> Result<Command<'a>, AllocError>
    ensures shape { IfOk result (λ command. shape_of command ≡ subcommand_shape (codes "replay") replay_options) }
    ensures local { IfOk result (λ command. (fields_of command).has_globals ≡ false) }
{
    let command = Command::new(alloc, "replay")
        .arg(budget_option(alloc))?
        .arg(number_option(alloc, "seed", 0, u64::MAX))?
        .arg(list_option(alloc))?
        .arg(check_option(alloc))?;
    Ok(command)
}

// The subcommand of this name whose script is generated, with its options.
fn script_command<'a>(alloc: Global, name: &'a str) -> Result<Command<'a>, AllocError>
    ensures shape { IfOk result (λ command. shape_of command ≡ subcommand_shape name.entry.now script_options) }
    ensures local { IfOk result (λ command. (fields_of command).has_globals ≡ false) }
{
    let command = Command::new(alloc, name)
        .arg(number_option(alloc, "seed", 0, u64::MAX).required(true))?
        .arg(number_option(alloc, "size", 4, 200_000).required(true))?;
    Ok(command)
}

// The option `--budget`.
fn budget_option<'a>(alloc: Global) -> Arg<'a>
    ensures rule { rule_of result ≡ option_rule budget }
    ensures local { result.global ≡ false }
{
    number_option(alloc, "budget", 1, 1_000_000_000).default_value("50000000")
}

// The option `--list`.
fn list_option<'a>(alloc: Global) -> Arg<'a>
    ensures rule { rule_of result ≡ option_rule list }
    ensures local { result.global ≡ false }
{
    Arg::new(alloc, "list").long("list").action(ArgAction::Set)
}

// The flag `--check`.
fn check_option<'a>(alloc: Global) -> Arg<'a>
    ensures rule { rule_of result ≡ option_rule check }
    ensures local { result.global ≡ false }
{
    Arg::new(alloc, "check")
        .long("check")
        .action(ArgAction::SetTrue)
}

// An option `--name n` of a number from `least` to `most`.
fn number_option<'a>(alloc: Global, name: &'a str, least: u64, most: u64) -> Arg<'a>
    ensures rule { rule_of result ≡ option_rule (option_of name.entry.now (Number least most)) }
    ensures local { result.global ≡ false }
{
    Arg::new(alloc, name)
        .long(name)
        .action(ArgAction::Set)
        .value_parser(ValueParser::unsigned(least, most))
}
