// The command line as `clap` is told of it.
ghost use Rattle.std.specs.Prelude.{◌≡◌, false, IfOk};
ghost use Rattle.clap.specs.Walk.{rule_of};
ghost use Rattle.clap.specs.Simple.{Shape, app_of, new_shape, with_subcommand};
ghost use Rattle.clap.specs.declared.builder.value_parser.ValueParser.TheVariants.{Unsigned};
ghost use Rattle.lucy_asking.specs.CommandLine as spec;
ghost use Rattle.lucy_asking.specs.Saying.{HasShape, rule_told, taking_more, with_commands};

use crate::name::Name;
use crate::told::{Takes, Told, about, spelled, taken_by};
use clap::builder::ValueParser;
use clap::{Arg, ArgAction, Command, value_parser};
use std::alloc::{AllocError, Global};

const VERSION: &str = "0.1";

// A number between these.
fn between<'a>(least: u32, most: u32) -> ValueParser<'a>
    ensures { result ≡ Unsigned least most }
{
    value_parser!(u64).range(i64::from(least)..=i64::from(most))
}

// An operand or an option.
fn arg_of<'a>(alloc: Global, told: &Told<'a>) -> Arg<'a>
    ensures rule { rule_of result ≡ rule_told told.now }
    ensures local { result.global ≡ false }
{
    let arg = Arg::new(alloc, told.name).help(told.help);
    match told.takes {
        Takes::Operand => arg,
        Takes::Required => arg.required(true),
        Takes::Flag => arg.long(told.name).action(ArgAction::SetTrue),
        Takes::Number(value, least, most) => {
            arg.long(told.name)
                .value_name(value)
                .value_parser(between(least, most))
        }
    }
}

// More operands and options.
fn with_args<'a>(
    alloc: Global,
    command: Command<'a>,
    list: &[Told<'a>],
) -> Result<Command<'a>, AllocError>
    ensures { (shape : Shape) → HasShape shape command.entry → IfOk result (HasShape (taking_more shape list.now)) }
{
    let mut command = command;
    'each: for one in list {
        command = match command.arg(arg_of(alloc, one)) {
            Ok(command) => command,
            Err(error) => return Err(error),
        };
    }
    Ok(command)
}

// A command.
fn named<'a>(alloc: Global, name: Name) -> Result<Command<'a>, AllocError>
    ensures { IfOk result (HasShape (spec.command_shape name)) }
{
    let command: Command<'a> = Command::new(alloc, spelled(name)).about(about(name));
    with_args(alloc, command, taken_by(name))
}

// One more command.
fn with_command<'a>(alloc: Global, line: Command<'a>, name: Name) -> Result<Command<'a>, AllocError>
    ensures { IfOk result (λ c. app_of c ≡ with_subcommand (app_of line.entry) (spec.command_shape name)) }
{
    match named(alloc, name) {
        Ok(command) => line.subcommand(command),
        Err(error) => {
            drop(line);
            Err(error)
        }
    }
}

// More commands.
fn with_commands<'a>(
    alloc: Global,
    line: Command<'a>,
    names: &[Name],
) -> Result<Command<'a>, AllocError>
    ensures { IfOk result (λ c. app_of c ≡ with_commands (app_of line.entry) names.now) }
{
    let mut line = line;
    'each: for name in names {
        line = match with_command(alloc, line, *name) {
            Ok(line) => line,
            Err(error) => return Err(error),
        };
    }
    Ok(line)
}

/// All commands.
pub(crate) fn command<'a>(alloc: Global) -> Result<Command<'a>, AllocError>
    ensures { IfOk result (λ c. app_of c ≡ spec.line) }
{
    let line = Command::new(alloc, "lucy_view")
        .version(VERSION)
        .about("Shows programs of lucy")
        .subcommand_required(true);
    with_commands(
        alloc,
        line,
        &[
            Name::Time,
            Name::Net,
            Name::Wave,
            Name::Where,
            Name::Page,
            Name::Explain,
            Name::Why,
            Name::Freeze,
        ],
    )
}
