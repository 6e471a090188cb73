//! What a command line asks for.

mod argument_values;
mod grammar;
mod key_blocks;
pub mod lines;
mod misuse;
mod passwords;
mod payment;
mod requests;
mod sources;
pub mod streams;
mod table;

ghost use Rattle.std.specs.Prelude.{ℕ, List, Option, IfOk};
ghost use Rattle.clap.specs.Matches.{subcommand_name_of};
ghost use Rattle.des_arguments.specs.CommandArguments.{HasDirectionOf};

use argument_values::{count_of, is_set, place_of, text_of, texts_of};
use clap::ArgMatches;
use des_lines::fault::{Fault, Misuse};
use des_lines::requests::{Calculation, Purpose};
use des_payment::dukpt::MessageDirection;
use des_requests::command::{Command, MacRequest, Method, PaddingMethod, Question};
use des_requests::sources::file_of;
pub use grammar::{known_name, names_of, parse, takes};
use key_blocks::key_block_request;
use lines::lines_request;
use misuse::{misuse, refuse};
use passwords::private_key_request;
use payment::{emv_request, offset_request, pin_request, pvv_request};
use requests::{Requested, by_key, with_account};
use sources::{KEY, input_at, is_standard_input, key_of, names_one, read_once};
use streams::stream_request;

// ---- mac

fn method_of<'a>(name: &str, padding: Option<&str>) -> Result<Method, Fault<'a>> {
    let by = match padding {
        Some("1") => PaddingMethod::One,
        _ => PaddingMethod::Two,
    };
    match (name, padding) {
        ("cmac", None) => Ok(Method::Cmac),
        ("cmac", Some(_)) => Err(misuse(Misuse::PaddingOfCmac, "")),
        (_, None) => Err(misuse(Misuse::PaddingNeeded, "")),
        ("retail", Some(_)) => Ok(Method::Retail(by)),
        (_, Some(_)) => Ok(Method::CbcMac(by)),
    }
}

fn question_of<'a>(matches: &ArgMatches<'a>) -> Result<Question<'a>, Fault<'a>> {
    match (text_of(matches, "verify"), count_of(matches, "length")) {
        (None, count) => Ok(Question::Print(count.unwrap_or(8))),
        (Some(digits), Some(count)) if digits.len() != 2 * count as usize => {
            Err(misuse(Misuse::LengthOfVerify, ""))
        }
        (Some(digits), _) => Ok(Question::Verify(digits)),
    }
}

fn mac_request<'a>(matches: &ArgMatches<'a>) -> Result<MacRequest<'a>, Fault<'a>> {
    let name = place_of(matches, "method");
    let method = method_of(name, text_of(matches, "padding"))?;
    let question = question_of(matches)?;
    let key = key_of(matches)?;
    let message = input_at(matches, "in");
    read_once(key, message)?;
    Ok(MacRequest {
        method,
        question,
        key,
        message,
        is_hexadecimal: is_set(matches, "hex"),
    })
}

// ---- keys

fn combine_request<'m, 'a>(matches: &'m ArgMatches<'a>) -> Result<Command<'m, 'a>, Fault<'a>>
    ensures { IfOk result (λ command. (name : Option (List ℕ)) → HasDirectionOf name command) }
{
    match (texts_of(matches, "part-file"), count_of(matches, "count")) {
        (None, Some(count)) => {
            let request = by_key(Calculation::Combine { count }, matches)?;
            Ok(Command::Calculate(request))
        }
        (Some(paths), None) if paths.len() >= 2 && !names_one(matches, KEY) => {
            let sources = paths.iter().map(|path| Some(file_of(path)));
            let count = sources.filter(|it| is_standard_input(*it)).count();
            refuse(count > 1, Misuse::StandardInputTwice)?;
            Ok(Command::CombineFiles(paths))
        }
        _ => Err(misuse(Misuse::Components, "")),
    }
}

fn purpose_of<'a>(name: &str, responds: bool) -> Result<Purpose, Fault<'a>> {
    let message = if responds {
        MessageDirection::Response
    } else {
        MessageDirection::Request
    };
    match name {
        "mac" => Ok(Purpose::Mac(message)),
        "data" => Ok(Purpose::Data(message)),
        "data-variant" => Ok(Purpose::DataVariant(message)),
        _ if responds => Err(misuse(Misuse::ResponseOfPin, "")),
        _ => Ok(Purpose::Pin),
    }
}

fn dukpt_request<'a>(matches: &ArgMatches<'a>) -> Requested<'a> {
    let serial = place_of(matches, "serial");
    let name = place_of(matches, "purpose");
    let purpose = purpose_of(name, is_set(matches, "response"))?;
    let calculation = Calculation::Transaction {
        serial,
        purpose,
        is_initial: is_set(matches, "initial-key"),
    };
    by_key(calculation, matches)
}

fn check_request<'a>(matches: &ArgMatches<'a>) -> Requested<'a> {
    let bytes = count_of(matches, "bytes").unwrap_or(3);
    by_key(Calculation::CheckValue { bytes }, matches)
}

fn cvv_request<'a>(matches: &ArgMatches<'a>) -> Requested<'a> {
    let calculation = Calculation::Cvv {
        expiry: place_of(matches, "expiry"),
        service: place_of(matches, "service"),
    };
    with_account(by_key(calculation, matches)?, matches)
}

// The calculation of a command of this name, or of the command of a group.
fn calculation_of<'a>(name: &str, matches: &ArgMatches<'a>) -> Requested<'a> {
    let (second, matches) = matches.subcommand().unwrap_or(("", matches));
    match name {
        "check-value" => check_request(matches),
        "parity" => by_key(Calculation::Parity, matches),
        "weak" => by_key(Calculation::Weak, matches),
        "dukpt" => dukpt_request(matches),
        "cvv" => cvv_request(matches),
        "pvv" => pvv_request(matches),
        "offset" => offset_request(second, matches),
        "emv" => emv_request(second, matches),
        "key-block" => key_block_request(second, matches),
        "pin" => pin_request(second, matches),
        _ => Err(misuse(Misuse::Arguments, "")),
    }
}

// What the arguments of a command of this name ask for, which is no stream.
fn other_command<'m, 'a>(
    name: &str,
    matches: &'m ArgMatches<'a>,
) -> Result<Command<'m, 'a>, Fault<'a>>
    ensures { IfOk result (λ command. (name : Option (List ℕ)) → HasDirectionOf name command) }
{
    match name {
        "decrypt-pem" => Ok(Command::PrivateKey(private_key_request(matches)?)),
        "decrypt-lines" => Ok(Command::Lines(lines_request(matches)?)),
        "mac" => Ok(Command::Mac(mac_request(matches)?)),
        "combine" => combine_request(matches),
        _ => Ok(Command::Calculate(calculation_of(name, matches)?)),
    }
}

/// What the arguments ask for; a fault if their options don't go together.
pub fn command_of<'m, 'a>(matches: &'m ArgMatches<'a>) -> Result<Command<'m, 'a>, Fault<'a>>
    ensures direction { IfOk result (HasDirectionOf (subcommand_name_of matches.now)) }
{
    match matches.subcommand() {
        Some(("encrypt", matches)) => Ok(Command::Stream(stream_request(true, matches)?)),
        Some(("decrypt", matches)) => Ok(Command::Stream(stream_request(false, matches)?)),
        Some((name, matches)) => other_command(name, matches),
        None => Err(misuse(Misuse::Arguments, "")),
    }
}
