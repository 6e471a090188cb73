//! What the arguments of `pin`, `pvv`, `offset` and `emv` ask for.

use super::argument_values::{count_of, is_given, is_set, place_of, text_of};
use super::misuse::misuse;
use super::requests::{Requested, by_key, with_account, with_key_of};
use super::sources::{input_at, one_of};
use clap::ArgMatches;
use des_lines::fault::{Fault, Misuse};
use des_lines::requests::{
    Calculation, CalculationRequest, CardKeyOption, EmvCalculation, NaturalPins, PinCalculation,
};
use des_payment::translation::Format;
use des_requests::command::by_input;

// The format of a place, of which the grammar takes the names alone.
fn format_of(matches: &ArgMatches, name: &str) -> Format {
    match place_of(matches, name) {
        "0" => Format::Format0,
        "1" => Format::Format1,
        "2" => Format::Format2,
        _ => Format::Format3,
    }
}

// ---- PIN blocks

// Formats 1 and 2 take no account number.
fn refuse_account<'a>(matches: &ArgMatches) -> Result<(), Fault<'a>> {
    if is_given(matches, "account") {
        Err(misuse(Misuse::AccountOfFormat, "--account"))
    } else if is_given(matches, "account-file") {
        Err(misuse(Misuse::AccountOfFormat, "--account-file"))
    } else if is_given(matches, "check-digit") {
        Err(misuse(Misuse::AccountOfFormat, "--check-digit"))
    } else {
        Ok(())
    }
}

// The digits of `--fill`, which formats 1 and 3 need and the others don't take.
fn fill_of<'a>(format: Format, matches: &ArgMatches<'a>) -> Result<&'a str, Fault<'a>> {
    match (format, text_of(matches, "fill")) {
        (Format::Format0 | Format::Format2, None) => Ok(""),
        (Format::Format1 | Format::Format3, Some(digits)) => Ok(digits),
        (Format::Format0 | Format::Format2, Some(_)) => Err(misuse(Misuse::Fill, "")),
        (Format::Format1 | Format::Format3, None) => Err(misuse(Misuse::FillNeeded, "")),
    }
}

// The request of a block in a format.
fn with_account_of<'a>(
    format: Format,
    request: CalculationRequest<'a>,
    matches: &ArgMatches<'a>,
) -> Requested<'a> {
    match format {
        Format::Format1 | Format::Format2 => {
            refuse_account(matches)?;
            Ok(request)
        }
        _ => with_account(request, matches),
    }
}

fn encode_request<'a>(matches: &ArgMatches<'a>) -> Requested<'a> {
    let format = format_of(matches, "format");
    let fill = fill_of(format, matches)?;
    let pin = input_at(matches, "pin-file");
    let request = by_input(Calculation::Encode { format, fill }, pin);
    with_account_of(format, request, matches)
}

fn decode_request<'a>(matches: &ArgMatches<'a>) -> Requested<'a> {
    let format = format_of(matches, "format");
    let block = input_at(matches, "block-file");
    let request = by_input(Calculation::Decode { format }, block);
    with_account_of(format, request, matches)
}

// The request of a translation of a block of format 1 to format 1, in which its digits are
// unchanged.
fn format_1_request<'a>(matches: &ArgMatches<'a>) -> Requested<'a> {
    if is_given(matches, "fill") {
        return Err(misuse(Misuse::FillOfFormat1, ""));
    }
    refuse_account(matches)?;
    let calculation = Calculation::Pin(PinCalculation::TranslateFormat1);
    Ok(by_input(calculation, input_at(matches, "block-file")))
}

// The request of a translation between two formats, without its keys.
fn translation_between<'a>(from: Format, to: Format, matches: &ArgMatches<'a>) -> Requested<'a> {
    match (from, to) {
        (Format::Format1, Format::Format1) => format_1_request(matches),
        (_, Format::Format1) => Err(misuse(Misuse::ToFormat1, "")),
        _ => {
            let fill = fill_of(to, matches)?;
            let calculation = Calculation::Pin(PinCalculation::Translate { from, to, fill });
            let block = input_at(matches, "block-file");
            with_account(by_input(calculation, block), matches)
        }
    }
}

fn translate_request<'a>(matches: &ArgMatches<'a>) -> Requested<'a> {
    let (from, to) = (format_of(matches, "from"), format_of(matches, "to"));
    let request = translation_between(from, to, matches)?;
    let names = ["to-key-file", "to-key-fd", "to-key-env"];
    let to_key = Some(one_of(matches, names, Misuse::ToKeySource)?);
    with_key_of(CalculationRequest { to_key, ..request }, matches)
}

/// What the arguments of the command of `pin` of this name ask for.
pub fn pin_request<'a>(name: &str, matches: &ArgMatches<'a>) -> Requested<'a> {
    match name {
        "encode" => encode_request(matches),
        "decode" => decode_request(matches),
        "translate" => translate_request(matches),
        _ => Err(misuse(Misuse::Arguments, "")),
    }
}

// ---- PIN verification

// The request of a calculation whose input is the PIN.
fn by_pin<'a>(calculation: PinCalculation<'a>, matches: &ArgMatches<'a>) -> CalculationRequest<'a> {
    by_input(Calculation::Pin(calculation), input_at(matches, "pin-file"))
}

/// What the arguments of `pvv` ask for: with a value, whether the PIN has it.
pub fn pvv_request<'a>(matches: &ArgMatches<'a>) -> Requested<'a> {
    // The grammar takes an index from 1 to 6.
    let index = count_of(matches, "index").unwrap_or(0);
    let calculation = match text_of(matches, "value") {
        Some(value) => PinCalculation::VerifyPvv { index, value },
        None => PinCalculation::MakePvv { index },
    };
    let request = with_account(by_pin(calculation, matches), matches)?;
    with_key_of(request, matches)
}

fn natural_pins_of<'a>(matches: &ArgMatches<'a>) -> NaturalPins<'a> {
    NaturalPins {
        validation: place_of(matches, "validation"),
        table: place_of(matches, "table"),
        takes_any_table: is_set(matches, "any-table"),
    }
}

/// What the arguments of the command of `offset` of this name ask for.
pub fn offset_request<'a>(name: &str, matches: &ArgMatches<'a>) -> Requested<'a> {
    let by = natural_pins_of(matches);
    if name == "natural" {
        let count = count_of(matches, "length").unwrap_or(4);
        return by_key(
            Calculation::Pin(PinCalculation::Natural { by, count }),
            matches,
        );
    }
    let calculation = match text_of(matches, "offset") {
        Some(offset) => PinCalculation::VerifyOffset { by, offset },
        None => PinCalculation::MakeOffset { by },
    };
    with_key_of(by_pin(calculation, matches), matches)
}

// ---- cards

// The key of a session, by the counter or by the cryptogram.
fn session_of<'a>(matches: &ArgMatches<'a>) -> Result<EmvCalculation<'a>, Fault<'a>> {
    match (text_of(matches, "counter"), text_of(matches, "cryptogram")) {
        (Some(counter), None) => Ok(EmvCalculation::ApplicationKey { counter }),
        (None, Some(cryptogram)) => Ok(EmvCalculation::SessionKey { cryptogram }),
        _ => Err(misuse(Misuse::Session, "")),
    }
}

// The issuer's response, by method 1 if there is its code.
fn response_of<'a>(matches: &ArgMatches<'a>) -> EmvCalculation<'a> {
    let cryptogram = place_of(matches, "cryptogram");
    match text_of(matches, "code") {
        Some(code) => EmvCalculation::Response1 { cryptogram, code },
        None => EmvCalculation::Response2 {
            cryptogram,
            status: place_of(matches, "status"),
            issued: place_of(matches, "data"),
        },
    }
}

// The option of a word that the grammar takes.
fn card_key_option_of(word: Option<&str>) -> CardKeyOption {
    match word {
        Some("b") => CardKeyOption::B,
        _ => CardKeyOption::A,
    }
}

// The key of a card.
fn card_key_of<'a>(matches: &ArgMatches<'a>) -> EmvCalculation<'a> {
    EmvCalculation::CardKey {
        option: card_key_option_of(text_of(matches, "option")),
        sequence: text_of(matches, "sequence").unwrap_or("00"),
    }
}

// A calculation with a card whose input is the key.
fn by_card_key<'a>(calculation: EmvCalculation<'a>, matches: &ArgMatches<'a>) -> Requested<'a> {
    by_key(Calculation::Emv(calculation), matches)
}

fn card_key_request<'a>(matches: &ArgMatches<'a>) -> Requested<'a> {
    with_account(by_card_key(card_key_of(matches), matches)?, matches)
}

/// What the arguments of the command of `emv` of this name ask for.
pub fn emv_request<'a>(name: &str, matches: &ArgMatches<'a>) -> Requested<'a> {
    match name {
        "card-key" => card_key_request(matches),
        "session-key" => by_card_key(session_of(matches)?, matches),
        "cryptogram" => {
            let calculation = Calculation::Emv(EmvCalculation::Cryptogram);
            with_key_of(
                by_input(calculation, input_at(matches, "data-file")),
                matches,
            )
        }
        "response-1" | "response-2" => by_card_key(response_of(matches), matches),
        _ => Err(misuse(Misuse::Arguments, "")),
    }
}
