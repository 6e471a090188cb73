//! What the arguments of `key-block` ask for.

use super::argument_values::{place_of, text_of};
use super::misuse::misuse;
use super::requests::{Requested, by_key, with_key};
use super::sources::{input_at, one_of};
use clap::ArgMatches;
use des_key_blocks::key_block_header::Version;
use des_lines::fault::{Fault, Misuse};
use des_lines::requests::{Calculation, CalculationRequest, KeyBlockCalculation, Wrapping};
use des_requests::command::by_input;

// The request with the key that protects blocks.
fn protected<'a>(request: CalculationRequest<'a>, matches: &ArgMatches<'a>) -> Requested<'a> {
    let names = [
        "protection-key-file",
        "protection-key-fd",
        "protection-key-env",
    ];
    let key = one_of(matches, names, Misuse::ProtectionKeySource)?;
    with_key(request, key)
}

// The version of a word that the grammar takes.
fn version_of(word: Option<&str>) -> Version {
    match word {
        Some("C") => Version::C,
        _ => Version::B,
    }
}

// Refuses small letters in the fields of a header, where no standard has any: `p0` would be another
// usage than `P0`.
fn refuse_small<'a>(matches: &ArgMatches<'a>) -> Result<(), Fault<'a>> {
    for name in ["usage", "algorithm", "mode", "exportability"] {
        let text = text_of(matches, name).unwrap_or("");
        if text.bytes().any(|byte| byte.is_ascii_lowercase()) {
            return Err(misuse(Misuse::Capitals, ""));
        }
    }
    Ok(())
}

fn wrapping_of<'a>(matches: &ArgMatches<'a>) -> Wrapping<'a> {
    let algorithm = text_of(matches, "algorithm");
    Wrapping {
        version: version_of(text_of(matches, "version")),
        usage: place_of(matches, "usage"),
        algorithm: algorithm.unwrap_or("T"),
        names_algorithm: algorithm.is_some(),
        mode: place_of(matches, "mode"),
        key_version: text_of(matches, "key-version").unwrap_or("00"),
        exportability: text_of(matches, "exportability").unwrap_or("N"),
        optional: place_of(matches, "optional"),
    }
}

/// What the arguments of the command of `key-block` of this name ask for.
pub fn key_block_request<'a>(name: &str, matches: &ArgMatches<'a>) -> Requested<'a> {
    let block = input_at(matches, "block-file");
    match name {
        "header" => {
            let calculation = Calculation::KeyBlock(KeyBlockCalculation::Header);
            Ok(by_input(calculation, block))
        }
        "unwrap" => {
            let shows_key = text_of(matches, "show") == Some("key");
            let calculation = Calculation::KeyBlock(KeyBlockCalculation::Unwrap { shows_key });
            protected(by_input(calculation, block), matches)
        }
        "wrap" => {
            refuse_small(matches)?;
            let calculation = Calculation::KeyBlock(KeyBlockCalculation::Wrap(wrapping_of(
                matches,
            )));
            protected(by_key(calculation, matches)?, matches)
        }
        _ => Err(misuse(Misuse::Arguments, "")),
    }
}
