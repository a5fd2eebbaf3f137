ghost use Rattle.std.specs.Prelude.{◌≡◌, ◌↔◌, Some, IfOk, false, codes, drop, true, ◌∷◌};
ghost use Rattle.clap.specs.Words.{app_of, rule_of};
ghost use Rattle.scan_words.specs.declared.order.Order.{Order};
ghost use Rattle.scan_words.specs.Written.{Says};
ghost use Rattle.scan_words.specs.Command.{bare_option, bare_further, app_for, app_of_verb, program, IsLocal, raw_of};
ghost use Rattle.scan_words.specs.Form.{have_parts};
ghost use Rattle.scan_words.specs.Table.{texts};
ghost use Rattle.scan_words.specs.Verbs.{verb_name, option_names, takes_further};
ghost use Rattle.scan_words.specs.Orders.{order_by, verb_order, order_in};

use crate::form::have_parts;
use crate::order::Order;
use crate::table::OptionForm;
use crate::values::values_by;
use crate::verb::{Verb, verbs};
use base_types::{NoMemory, Rows, Word};
use clap::error::ErrorKind;
use clap::{Arg, ArgAction, ArgMatches, Command};
use std::alloc::{AllocError, Global};

/// An option with one value each time.
fn option_of<'a>(alloc: Global, name: &'a str) -> Arg<'a>
    ensures rule { rule_of result ≡ bare_option name.entry.now }
    ensures local { result.global ≡ false }
{
    Arg::new(alloc, name).long(name).action(ArgAction::Append)
}

/// The further words.
fn further_arg<'a>(alloc: Global) -> Arg<'a>
    ensures rule { rule_of result ≡ bare_further }
    ensures local { result.global ≡ false }
{
    Arg::new(alloc, "further").action(ArgAction::Append)
}

/// The command of this name, with the options of a table.
pub(crate) fn command_of<'a>(
    alloc: Global,
    name: &'a str,
    table: &[OptionForm],
    takes_further: bool,
) -> Result<Command<'a>, AllocError>
    ensures app { IfOk result (λ command. app_of command ≡ app_for name.entry.now (texts table.now) takes_further) }
    ensures local { IfOk result IsLocal }
{
    let mut command = Command::new(alloc, name);
    for option in table {
        command = command.arg(option_of(alloc, option.name.text()))?;
    }
    if takes_further {
        command = command.arg(further_arg(alloc))?;
    }
    Ok(command)
}

fn verb_command<'a>(alloc: Global, verb: Verb) -> Result<Command<'a>, AllocError>
    ensures app { IfOk result (λ command. app_of command ≡ app_of_verb verb) }
    ensures local { IfOk result IsLocal }
{
    command_of(alloc, verb.name(), verb.options(), verb.takes_further())
}

/// The program, with a subcommand for each command.
fn program<'a>(alloc: Global) -> Result<Command<'a>, AllocError>
    ensures { IfOk result (λ command. app_of command ≡ program) }
{
    let mut command = Command::new(alloc, "wrenpewter")
        .no_binary_name(true)
        .disable_help_flag(true)
        .disable_help_subcommand(true);
    for verb in verbs() {
        command = command.subcommand(verb_command(alloc, *verb)?)?;
    }
    Ok(command)
}

fn further_of(alloc: Global, matches: &ArgMatches<'_>) -> Result<Rows<Word>, NoMemory>
    ensures { IfOk result (λ further. further ≡ raw_of matches.now (codes "further")) }
{
    let mut further = Rows::new(alloc);
    let Some(words) = matches.get_strs("further") else {
        return Ok(further);
    };
    for word in words {
        further.push(Word::copy(alloc, *word)?)?;
    }
    Ok(further)
}

#[tactic(auto, unfolding(crate::specs::Orders::order_by))]
fn order_of(alloc: Global, verb: Verb, matches: &ArgMatches<'_>) -> Result<Option<Order>, NoMemory>
    ensures { IfOk result (λ order. order ≡ order_by verb (raw_of matches.now)) }
{
    let Some(values) = values_by(alloc, verb.options(), matches)? else {
        return Ok(None);
    };
    let further = further_of(alloc, matches)?;
    if further.as_slice().is_empty() == verb.takes_further() {
        return Ok(None);
    }
    Ok(Some(Order {
        verb,
        values,
        further,
    }))
}

/// What clap finds in words of a command that have parts.
fn parsed(alloc: Global, verb: Verb, words: &[Word]) -> Result<Option<Order>, NoMemory>
    requires command { words.now ≡ verb_name verb ∷ drop 1 words.now }
    requires parts { have_parts (option_names verb) (takes_further verb) false (drop 1 words.now) ≡ true }
    ensures { IfOk result (λ order. order ≡ verb_order verb (drop 1 words.now)) }
{
    let matches = match program(alloc)?.try_get_matches_from(words) {
        Ok(matches) => matches,
        Err(error) if error.kind() == ErrorKind::OutOfMemory => return Err(NoMemory),
        Err(_) => unreachable!(),
    };
    match matches.subcommand() {
        Some((_, matches)) => order_of(alloc, verb, matches),
        None => unreachable!(),
    }
}

/// The order that the words say, or None exactly where they are of no written form.
#[tactic(auto, unfolding(crate::specs::Orders::order_in))]
pub fn read_words(alloc: Global, words: &[Word]) -> Result<Option<Order>, NoMemory>
    ensures value { IfOk result (λ order. order ≡ order_in words.now) }
    ensures form { (order : Order) → (Says words.now order ↔ order_in words.now ≡ Some order) }
{
    let Some((command, behind)) = words.split_first() else {
        return Ok(None);
    };
    let Some(verb) = Verb::of(command.as_str()) else {
        return Ok(None);
    };
    if !have_parts(verb.options(), verb.takes_further(), behind) {
        return Ok(None);
    }
    parsed(alloc, verb, words)
}
