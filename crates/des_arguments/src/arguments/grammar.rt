//! The command line, parsed by the table of commands.

use super::table::{Argument, CommandGroup, CommandRow, STATUSES, Takes, groups, list_of};
use clap::{Arg, ArgAction, ArgMatches, Command, Error, value_parser};
use std::alloc::{AllocError, Global};

// What several arguments need stands in a function of its own, without a contract: a proof of its
// caller then has nothing to carry of the many fields that `clap` leaves as they are.
fn place<'a>(arg: Arg<'a>, value: &'a str) -> Arg<'a> {
    arg.required(true).value_name(value)
}

fn option<'a>(arg: Arg<'a>, name: &'a str, value: &'a str) -> Arg<'a> {
    arg.long(name).value_name(value)
}

fn one_of<'a>(arg: Arg<'a>, values: &'a [&'a str]) -> Arg<'a> {
    arg.value_parser(values)
}

fn number<'a>(arg: Arg<'a>) -> Arg<'a> {
    arg.value_parser(value_parser!(u64))
}

fn needed<'a>(arg: Arg<'a>) -> Arg<'a> {
    arg.required(true)
}

// The argument as it is typed: in its place, or after its name.
fn typed<'a>(arg: Arg<'a>, name: &'a str, takes: Takes<'a>) -> Arg<'a> {
    match takes {
        Takes::Place(value, _) | Takes::PlaceOfText(value) => place(arg, value),
        Takes::Word(value, _)
        | Takes::Number(value)
        | Takes::Count(value)
        | Takes::Text(value)
        | Takes::Needed(value)
        | Takes::NeededWord(value, _)
        | Takes::Texts(value) => option(arg, name, value),
        Takes::Hidden => option(arg, name, name),
        Takes::Nothing => arg.long(name),
    }
}

fn arg_of<'a>(alloc: Global, argument: Argument<'a>) -> Arg<'a> {
    let Argument(name, takes, help) = argument;
    let arg = typed(Arg::new(alloc, name).help(help), name, takes);
    match takes {
        Takes::Place(_, values) | Takes::Word(_, values) => one_of(arg, values),
        Takes::NeededWord(_, values) => needed(one_of(arg, values)),
        Takes::Needed(_) => needed(arg),
        Takes::Number(_) => number(arg),
        Takes::Hidden => number(arg).hide(true),
        Takes::Count(_) => arg.value_parser(value_parser!(u8)),
        Takes::Texts(_) => arg.action(ArgAction::Append),
        Takes::Nothing => arg.action(ArgAction::SetTrue),
        Takes::PlaceOfText(_) | Takes::Text(_) => arg,
    }
}

fn with_argument<'a>(command: Command<'a>, arg: Arg<'a>) -> Result<Command<'a>, AllocError> {
    command.arg(arg)
}

fn with_arguments<'a>(
    alloc: Global,
    command: Command<'a>,
    arguments: &'a [Argument<'a>],
) -> Result<Command<'a>, AllocError> {
    let mut command = command;
    for argument in arguments {
        command = with_argument(command, arg_of(alloc, *argument))?;
    }
    Ok(command)
}

fn named<'a>(alloc: Global, name: &'a str, about: &'a str, after: &'a str) -> Command<'a> {
    Command::new(alloc, name).about(about).after_help(after)
}

// The command of a row; without its arguments if no word names it, since they are then neither
// parsed nor shown.
fn command_of<'a>(
    alloc: Global,
    row: &'a CommandRow<'a>,
    command_line: &[&str],
) -> Result<Command<'a>, AllocError> {
    let mut command = named(alloc, row.name, row.about, row.example);
    if command_line.contains(&row.name) {
        for arguments in row.arguments {
            command = with_arguments(alloc, command, list_of(*arguments))?;
        }
    }
    Ok(command)
}

fn with_command<'a>(
    command: Command<'a>,
    subcommand: Command<'a>,
) -> Result<Command<'a>, AllocError> {
    command.subcommand(subcommand)
}

fn parent<'a>(command: Command<'a>) -> Command<'a> {
    command
        .subcommand_required(true)
        .arg_required_else_help(true)
}

// The command with the commands of a group: below one of its name, if it has one.
fn with_group<'a>(
    alloc: Global,
    command: Command<'a>,
    group: &'a CommandGroup<'a>,
    command_line: &[&str],
) -> Result<Command<'a>, AllocError> {
    if group.name == "" {
        return with_commands(alloc, command, group.commands, command_line);
    }
    let after = "Each command's own help has an example.";
    let above = parent(named(alloc, group.name, group.about, after));
    with_command(
        command,
        with_commands(alloc, above, group.commands, command_line)?,
    )
}

fn with_commands<'a>(
    alloc: Global,
    command: Command<'a>,
    rows: &'a [CommandRow<'a>],
    command_line: &[&str],
) -> Result<Command<'a>, AllocError> {
    let mut command = command;
    for row in rows {
        command = with_command(command, command_of(alloc, row, command_line)?)?;
    }
    Ok(command)
}

fn program<'a>(alloc: Global) -> Command<'a> {
    let about =
        "DES and triple DES: files, message authentication codes, keys and payment formats.";
    parent(named(alloc, "cukvashe", about, STATUSES)).version("0.1.0")
}

fn command<'a>(alloc: Global, command_line: &[&str]) -> Result<Command<'a>, AllocError> {
    let mut command = program(alloc);
    for group in groups() {
        command = with_group(alloc, command, group, command_line)?;
    }
    Ok(command)
}

/// Parses a command line, the program's name first.
pub fn parse<'a>(alloc: Global, command_line: &'a [&'a str]) -> Result<ArgMatches<'a>, Error> {
    command(alloc, command_line)?.try_get_matches_from(command_line)
}

/// The name of an option, a command or a group that a word is, as it is known here; nothing of
/// another word.
pub fn known_name(word: &str) -> &'static str {
    for group in groups() {
        if group.name == word {
            return group.name;
        }
        for row in group.commands {
            if row.name == word {
                return row.name;
            }
            let name = argument_name(row, word);
            if name != "" {
                return name;
            }
        }
    }
    ""
}

// The name of an argument of a command that a word is; nothing of another word.
fn argument_name(row: &CommandRow<'static>, word: &str) -> &'static str {
    for arguments in row.arguments {
        for argument in list_of(*arguments) {
            if argument.0 == word {
                return argument.0;
            }
        }
    }
    ""
}

// Whether a command of a group has an argument of this name.
fn has_argument(group: &CommandGroup<'static>, command: &str, name: &str) -> bool {
    let row = group.commands.iter().find(|row| row.name == command);
    match row {
        Some(row) => argument_name(row, name) != "",
        None => false,
    }
}

/// Whether the command that a command line names has an argument of this name; if it names none,
/// whether any has.
pub fn takes(command_line: &[&str], name: &str) -> bool {
    let (first, second) = names_of(command_line);
    if first == "" {
        return known_name(name) != "";
    }
    let (of_group, command) = if second == "" {
        ("", first)
    } else {
        (first, second)
    };
    for group in groups() {
        if group.name == of_group && has_argument(group, command, name) {
            return true;
        }
    }
    false
}

/// The names of the command, as they are known here: none that was typed.
pub fn names_of(command_line: &[&str]) -> (&'static str, &'static str) {
    match *command_line {
        [_, word, second, ..] => names_by(word, second),
        [_, word] => names_by(word, ""),
        _ => ("", ""),
    }
}

// The names of a group or a command, and of the command in the group, that two words are; nothing
// of others.
fn names_by(word: &str, second: &str) -> (&'static str, &'static str) {
    for group in groups() {
        let known = name_in(group, if group.name == "" { word } else { second });
        match group.name {
            "" if known != "" => return (known, ""),
            name if name != "" && name == word => return (name, known),
            _ => {}
        }
    }
    ("", "")
}

// The name of a command of a group that a word is; nothing of another word.
fn name_in(group: &CommandGroup<'static>, word: &str) -> &'static str {
    let row = group.commands.iter().find(|row| row.name == word);
    row.map_or("", |row| row.name)
}
