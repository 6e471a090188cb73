//! Where keys and inputs are, and where the output goes, by the options that name them.

ghost use Rattle.std.specs.Prelude.{◌≡◌, IfOk, IfErr};
ghost use Rattle.des_lines.specs.declared.fault.FaultKind.TheVariants.{Usage};
ghost use Rattle.des_lines.specs.declared.fault.Misuse.TheVariants.{StandardInputTwice};
ghost use Rattle.des_arguments.specs.StreamArguments.{IsOutput, IsReadTwice};
ghost use Rattle.des_arguments.specs.CommandArguments.{is_standard_input as is_standard_input_of};

use super::argument_values::{is_given, number_of, text_of};
use super::misuse::misuse;
use clap::ArgMatches;
use des_lines::fault::{Fault, Misuse};
use des_lines::source::Source;
use des_requests::sources::{file_of, input_of};
use des_requests::streams::Output;

/// The options that name where a key is: a file, a descriptor and a variable, as `one_of` takes
/// them.
pub const KEY: [&str; 3] = ["key-file", "key-fd", "key-env"];

/// The one of three places that options name: a file, a descriptor and a variable.
pub fn one_of<'a>(
    matches: &ArgMatches<'a>,
    names: [&str; 3],
    fault: Misuse,
) -> Result<Source<'a>, Fault<'a>> {
    let file = text_of(matches, names[0]);
    let descriptor = number_of(matches, names[1]);
    let variable = text_of(matches, names[2]);
    match (file, descriptor, variable) {
        (Some(path), None, None) => Ok(file_of(path)),
        (None, Some(0), None) => Ok(Source::StandardInput),
        (None, Some(number), None) => Ok(Source::Descriptor(number)),
        (None, None, Some(name)) => Ok(Source::Variable(name)),
        _ => Err(misuse(fault, "")),
    }
}

/// Whether one of the options is given.
pub fn names_one(matches: &ArgMatches, names: [&str; 3]) -> bool {
    names.iter().any(|name| is_given(matches, name))
}

/// Where the key is, of a command that takes no password.
pub fn key_of<'a>(matches: &ArgMatches<'a>) -> Result<Source<'a>, Fault<'a>> {
    one_of(matches, KEY, Misuse::KeySource)
}

/// Where the input is that an option names: in a file, or on standard input without the option.
pub fn input_at<'a>(matches: &ArgMatches<'a>, name: &str) -> Source<'a> {
    input_of(text_of(matches, name))
}

/// Where the output goes: to a file, to standard output, as `-` asks for, or to no named place.
pub fn output_of<'a>(path: Option<&'a str>) -> Output<'a>
    ensures { IsOutput path.entry result }
{
    match path {
        Some("-") => Output::StandardOutput,
        Some(path) => Output::File(path),
        None => Output::Unnamed,
    }
}

/// Standard input is the place of one of two inputs at most.
pub fn read_once<'a>(first: Source, second: Source) -> Result<(), Fault<'a>>
    ensures once { IfOk result (λ _. ¬ IsReadTwice first.entry second.entry) }
    ensures fault { IfErr result (λ fault.
        IsReadTwice first.entry second.entry × (fault.kind ≡ Usage StandardInputTwice)) }
{
    match (first, second) {
        (Source::StandardInput, Source::StandardInput) => {
            Err(misuse(Misuse::StandardInputTwice, ""))
        }
        _ => Ok(()),
    }
}

/// Whether a key or an input is on standard input.
pub fn is_standard_input(source: Option<Source>) -> bool
    ensures { result ≡ is_standard_input_of source.entry }
{
    matches!(source, Some(Source::StandardInput))
}
