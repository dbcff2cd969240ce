//! The commands of the program, as clap is told them.

ghost use Rattle.std.specs.Prelude.{◌≡◌, IfOk, true, false};
ghost use Rattle.clap.specs.Words.{App, app_of, rule_of, with_rule, with_subcommand};
ghost use Rattle.clap.specs.declared.builder.command.Command.TheViews.{out-Command};
ghost use Rattle.rs_words.specs.Clap as spec;
ghost use Rattle.rs_words.specs.Grammar.{check_form, demo_form, draw_form, explain_form, gen_form, improve_form, run_form};

use clap::{Arg, ArgAction, Command};
use std::alloc::{AllocError, Global};

/// The command with one more option that has a value.
fn with_value<'a>(
    alloc: Global,
    command: Command<'a>,
    name: &'a str,
) -> Result<Command<'a>, AllocError>
    ensures app { IfOk result (λ r. app_of r ≡ with_rule (app_of command.entry) (spec.choice_rule name.entry.now true)) }
    ensures local { IfOk result (λ r. (out-Command command.entry).has_globals ≡ false → (out-Command r).has_globals ≡ false) }
{
    let option = Arg::new(alloc, name).long(name).action(ArgAction::Set);
    command.arg(option)
}

/// The command with two more options that have a value.
fn with_values<'a>(
    alloc: Global,
    command: Command<'a>,
    first: &'a str,
    second: &'a str,
) -> Result<Command<'a>, AllocError>
    ensures app { IfOk result (λ r. app_of r ≡ with_rule (with_rule (app_of command.entry) (spec.choice_rule first.entry.now true)) (spec.choice_rule second.entry.now true)) }
    ensures local { IfOk result (λ r. (out-Command command.entry).has_globals ≡ false → (out-Command r).has_globals ≡ false) }
{
    let command = with_value(alloc, command, first)?;
    with_value(alloc, command, second)
}

/// The command with one more option that has no value.
fn with_flag<'a>(
    alloc: Global,
    command: Command<'a>,
    name: &'a str,
) -> Result<Command<'a>, AllocError>
    ensures app { IfOk result (λ r. app_of r ≡ with_rule (app_of command.entry) (spec.choice_rule name.entry.now false)) }
    ensures local { IfOk result (λ r. (out-Command command.entry).has_globals ≡ false → (out-Command r).has_globals ≡ false) }
{
    let flag = Arg::new(alloc, name).long(name).action(ArgAction::SetTrue);
    command.arg(flag)
}

/// The command with a positional word.
fn with_word<'a>(
    alloc: Global,
    command: Command<'a>,
    id: &'a str,
) -> Result<Command<'a>, AllocError>
    ensures app { IfOk result (λ r. app_of r ≡ with_rule (app_of command.entry) (spec.word_rule id.entry.now)) }
    ensures local { IfOk result (λ r. (out-Command command.entry).has_globals ≡ false → (out-Command r).has_globals ≡ false) }
{
    let word = Arg::new(alloc, id).action(ArgAction::Set);
    command.arg(word)
}

/// The command `check`.
fn check_command<'a>(alloc: Global) -> Result<Command<'a>, AllocError>
    ensures app { IfOk result (λ r. app_of r ≡ spec.app_of_form check_form) }
    ensures local { IfOk result (λ r. (out-Command r).has_globals ≡ false) }
{
    let command = with_value(alloc, Command::new(alloc, "check"), "bound")?;
    with_flag(alloc, command, "derivations")
}

/// The command `run`.
fn run_command<'a>(alloc: Global) -> Result<Command<'a>, AllocError>
    ensures app { IfOk result (λ r. app_of r ≡ spec.app_of_form run_form) }
    ensures local { IfOk result (λ r. (out-Command r).has_globals ≡ false) }
{
    let command = with_value(alloc, Command::new(alloc, "run"), "bound")?;
    let command = with_values(alloc, command, "ring", "workers")?;
    with_values(alloc, command, "limit", "seed")
}

/// The command `demo`.
fn demo_command<'a>(alloc: Global) -> Result<Command<'a>, AllocError>
    ensures app { IfOk result (λ r. app_of r ≡ spec.app_of_form demo_form) }
    ensures local { IfOk result (λ r. (out-Command r).has_globals ≡ false) }
{
    let command = with_values(alloc, Command::new(alloc, "demo"), "ring", "workers")?;
    with_word(alloc, command, "name")
}

/// The command `gen`.
fn gen_command<'a>(alloc: Global) -> Result<Command<'a>, AllocError>
    ensures app { IfOk result (λ r. app_of r ≡ spec.app_of_form gen_form) }
    ensures local { IfOk result (λ r. (out-Command r).has_globals ≡ false) }
{
    with_word(alloc, Command::new(alloc, "gen"), "number")
}

/// The command `improve`.
fn improve_command<'a>(alloc: Global) -> Result<Command<'a>, AllocError>
    ensures app { IfOk result (λ r. app_of r ≡ spec.app_of_form improve_form) }
    ensures local { IfOk result (λ r. (out-Command r).has_globals ≡ false) }
{
    let command = with_values(alloc, Command::new(alloc, "improve"), "swaps", "bound")?;
    with_word(alloc, command, "role")
}

/// The command `explain`.
fn explain_command<'a>(alloc: Global) -> Result<Command<'a>, AllocError>
    ensures app { IfOk result (λ r. app_of r ≡ spec.app_of_form explain_form) }
    ensures local { IfOk result (λ r. (out-Command r).has_globals ≡ false) }
{
    with_value(alloc, Command::new(alloc, "explain"), "bound")
}

/// The command `draw`.
fn draw_command<'a>(alloc: Global) -> Result<Command<'a>, AllocError>
    ensures app { IfOk result (λ r. app_of r ≡ spec.app_of_form draw_form) }
    ensures local { IfOk result (λ r. (out-Command r).has_globals ≡ false) }
{
    let command = with_values(alloc, Command::new(alloc, "draw"), "bound", "ring")?;
    let command = with_values(alloc, command, "limit", "seed")?;
    let command = with_flag(alloc, command, "run")?;
    with_word(alloc, command, "role")
}

/// The program, before its commands are added.
fn program<'a>(alloc: Global) -> Command<'a>
    ensures app { app_of result ≡ spec.program }
    ensures local { (out-Command result).has_globals ≡ false }
{
    Command::new(alloc, "rumpsteak")
        .no_binary_name(true)
        .disable_help_flag(true)
        .disable_help_subcommand(true)
        .subcommand_required(true)
}

/// The program with one more command.
fn with_command<'a>(program: Command<'a>, command: Command<'a>) -> Result<Command<'a>, AllocError>
    requires { (out-Command command).has_globals ≡ false }
    ensures app { IfOk result (λ r. app_of r ≡ with_subcommand (app_of program.entry) (app_of command.entry).top) }
{
    program.subcommand(command)
}

/// The program with one more command, where there was memory for it.
fn with_made<'a>(
    program: Command<'a>,
    command: Result<Command<'a>, AllocError>,
) -> Result<Command<'a>, AllocError>
    requires { IfOk command (λ c. (out-Command c).has_globals ≡ false) }
    ensures { IfOk result (λ r. (made : App) → IfOk command.entry (λ c. app_of c ≡ made) → app_of r ≡ with_subcommand (app_of program.entry) made.top) }
{
    with_command(program, command?)
}

/// The program with all of its commands.
pub(crate) fn all_commands<'a>(alloc: Global) -> Result<Command<'a>, AllocError>
    ensures { IfOk result (λ r. app_of r ≡ spec.app) }
{
    let program = with_made(program(alloc), check_command(alloc))?;
    let program = with_command(program, Command::new(alloc, "verify"))?;
    let program = with_command(program, Command::new(alloc, "migrate"))?;
    let program = with_command(program, Command::new(alloc, "show"))?;
    let program = with_command(program, Command::new(alloc, "project"))?;
    let program = with_made(program, run_command(alloc))?;
    let program = with_made(program, demo_command(alloc))?;
    let program = with_made(program, gen_command(alloc))?;
    let program = with_made(program, improve_command(alloc))?;
    let program = with_made(program, explain_command(alloc))?;
    with_made(program, draw_command(alloc))
}
