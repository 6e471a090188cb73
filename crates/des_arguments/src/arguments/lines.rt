//! What the arguments of `decrypt-lines` ask for.

ghost use Rattle.std.specs.Prelude.{◌≡◌, ◌⊎◌, ◌≤◌, ◌<◌, false, true, IfOk, IfErr};
ghost use Rattle.des_lines.specs.declared.fault.FaultKind.TheVariants.{Usage};
ghost use Rattle.des_lines.specs.declared.fault.Misuse.TheVariants.{Arguments, ArgumentValue};
ghost use Rattle.des_arguments.specs.LineArguments.{algorithm_by, iterations_by, FailsAsFormat, FailsAsJasypt, FailsAsLinesRequest, FailsAsOther, IsFormat, IsJasypt, IsLinesRequest, IsOfOption, IsOther};
ghost use Rattle.des_requests.specs.LineFormats.{coding_of as coding_by, takes_secret as takes_secret_of};

use super::argument_values::{is_set, number_of, place_of, text_of};
use super::misuse::misuse;
use super::passwords::PASSWORD;
use super::sources::{KEY, names_one, one_of, output_of, read_once};
use clap::ArgMatches;
use des_columns::pbe::Algorithm;
use des_columns::pgcrypto::Scheme;
use des_lines::fault::{Fault, Misuse};
use des_passwords::encrypted_keys::MAX_ITERATIONS;
use des_requests::lines::{LineCoding, LineSecret, LinesRequest, ValueFormat};
use des_requests::sources::{file_of, input_of};

// What Jasypt takes unless it is told otherwise.
const ALGORITHM: &str = "PBEWithMD5AndDES";

const ITERATIONS: u64 = 1000;

/// The arguments of a command line that asks for values in lines, as they were typed.
#[derive(Clone, Copy)]
pub struct LineArguments<'a> {
    pub format: &'a str,
    pub iv: Option<&'a str>,
    pub algorithm: Option<&'a str>,
    pub iterations: Option<u64>,
    pub secret: LineSecret<'a>,
    pub is_base64: bool,
    pub writes_digits: bool,
    pub keeps_going: bool,
    pub input: Option<&'a str>,
    pub output: Option<&'a str>,
    pub shows_progress: bool,
}

// The number of iterations that the arguments ask for.
fn iterations_of<'a>(arguments: &LineArguments) -> Result<u32, Fault<'a>>
    ensures count { IfOk result (λ count. (count ≡ iterations_by arguments.now) × (1 ≤ count)
        × (count ≤ 10000000)) }
    ensures fault { IfErr result (λ fault.
        ((iterations_by arguments.now ≡ 0) ⊎ (10000000 < iterations_by arguments.now))
        × (fault.kind ≡ Usage ArgumentValue)) }
{
    let count = arguments.iterations.unwrap_or(ITERATIONS);
    if count == 0 || count > MAX_ITERATIONS as u64 {
        return Err(misuse(Misuse::ArgumentValue, "--iterations"));
    }
    Ok(count as u32)
}

// The algorithm that the arguments ask for.
fn algorithm_of(arguments: &LineArguments) -> Option<Algorithm>
    ensures { result ≡ algorithm_by arguments.now }
{
    Algorithm::of_name(arguments.algorithm.unwrap_or(ALGORITHM).as_bytes())
}

// What arguments of Jasypt ask for.
fn jasypt_of<'a>(arguments: &LineArguments) -> Result<(Algorithm, u32), Fault<'a>>
    ensures asked { IfOk result (λ asked. IsJasypt arguments.now asked.0 asked.1) }
    ensures fault { IfErr result (λ fault. FailsAsJasypt arguments.now × IsOfOption fault.kind) }
{
    if arguments.iv.is_some() {
        return Err(misuse(Misuse::Arguments, "--iv"));
    }
    if arguments.is_base64 {
        return Err(misuse(Misuse::Arguments, "--base64"));
    }
    let Some(by) = algorithm_of(arguments) else {
        return Err(misuse(Misuse::ArgumentValue, "--algorithm"));
    };
    let iterations = iterations_of(arguments)?;
    Ok((by, iterations))
}

// What arguments of another format ask for.
fn other_of<'a>(arguments: &LineArguments<'a>) -> Result<ValueFormat<'a>, Fault<'a>>
    ensures asked { IfOk result (IsOther arguments.now) }
    ensures fault { IfErr result (λ fault. FailsAsOther arguments.now × IsOfOption fault.kind) }
{
    if arguments.algorithm.is_some() {
        return Err(misuse(Misuse::Arguments, "--algorithm"));
    }
    if arguments.iterations.is_some() {
        return Err(misuse(Misuse::Arguments, "--iterations"));
    }
    match (arguments.format, arguments.iv) {
        ("mysql", None) => Ok(ValueFormat::Mysql),
        ("mysql", Some(_)) => Err(misuse(Misuse::Arguments, "--iv")),
        (name, iv) => match Scheme::of_name(name.as_bytes()) {
            Some(scheme) => Ok(ValueFormat::Pgcrypto(scheme, iv.unwrap_or(""))),
            None => Err(misuse(Misuse::ArgumentValue, "<FORMAT>")),
        },
    }
}

// The format that the arguments name, with what its options ask for.
fn format_of<'a>(arguments: &LineArguments<'a>) -> Result<ValueFormat<'a>, Fault<'a>>
    ensures format { IfOk result (IsFormat arguments.now) }
    ensures fault { IfErr result (λ fault. FailsAsFormat arguments.now × IsOfOption fault.kind) }
{
    match arguments.format {
        "jasypt" => {
            let (by, iterations) = jasypt_of(arguments)?;
            Ok(ValueFormat::Jasypt(by, iterations))
        }
        _ => other_of(arguments),
    }
}

// Whether a format takes a secret of this kind: Jasypt has passwords alone.
fn takes_secret(format: ValueFormat, secret: LineSecret) -> bool
    ensures { result ≡ takes_secret_of format.entry secret.entry }
{
    !matches!(
        (format, secret),
        (ValueFormat::Jasypt(_, _), LineSecret::Key(_))
    )
}

// How values stand in their lines.
fn coding_of(format: ValueFormat, is_base64: bool) -> LineCoding
    ensures { result ≡ coding_by format.entry is_base64 }
{
    match (format, is_base64) {
        (ValueFormat::Jasypt(_, _), _) => LineCoding::Bytes,
        (_, true) => LineCoding::Base64,
        (_, false) => LineCoding::Hexadecimal,
    }
}

/// What the arguments ask for. The fault is `Usage` if they don't go together.
pub fn request_of<'a>(arguments: &LineArguments<'a>) -> Result<LinesRequest<'a>, Fault<'a>>
    ensures asked { IfOk result (IsLinesRequest arguments.now) }
    ensures fault { IfErr result (λ fault. FailsAsLinesRequest arguments.now fault.kind) }
{
    let format = format_of(arguments)?;
    if !takes_secret(format, arguments.secret) {
        return Err(misuse(Misuse::PasswordSource, ""));
    }
    let input = input_of(arguments.input);
    read_once(arguments.secret.source(), input)?;
    Ok(LinesRequest {
        format,
        coding: coding_of(format, arguments.is_base64),
        secret: arguments.secret,
        writes_digits: arguments.writes_digits,
        keeps_going: arguments.keeps_going,
        input,
        output: output_of(arguments.output),
        shows_progress: arguments.shows_progress,
    })
}

fn password_of<'a>(matches: &ArgMatches<'a>, fault: Misuse) -> Result<LineSecret<'a>, Fault<'a>> {
    Ok(LineSecret::Password(one_of(matches, PASSWORD, fault)?))
}

fn key_alone<'a>(matches: &ArgMatches<'a>) -> Result<LineSecret<'a>, Fault<'a>> {
    if names_one(matches, PASSWORD) {
        return Err(misuse(Misuse::PasswordSource, ""));
    }
    Ok(LineSecret::Key(one_of(matches, KEY, Misuse::KeySource)?))
}

// What gives the keys of MySQL: the server's file of them, or a place of a key string.
fn secret_of_mysql<'a>(
    matches: &ArgMatches<'a>,
    keys: Option<&'a str>,
) -> Result<LineSecret<'a>, Fault<'a>> {
    if names_one(matches, KEY) {
        return Err(misuse(Misuse::MysqlSource, ""));
    }
    let Some(path) = keys else {
        return password_of(matches, Misuse::MysqlSource);
    };
    if names_one(matches, PASSWORD) {
        return Err(misuse(Misuse::MysqlSource, ""));
    }
    Ok(LineSecret::Key(file_of(path)))
}

// What gives the key: one place.
fn secret_of<'a>(matches: &ArgMatches<'a>) -> Result<LineSecret<'a>, Fault<'a>> {
    let keys = text_of(matches, "des-key-file");
    if place_of(matches, "format") == "mysql" {
        return secret_of_mysql(matches, keys);
    }
    if keys.is_some() {
        return Err(misuse(Misuse::Arguments, "--des-key-file"));
    }
    if names_one(matches, KEY) {
        key_alone(matches)
    } else {
        password_of(matches, Misuse::KeyOrPasswordSource)
    }
}

/// What the arguments of `decrypt-lines` ask for; a fault if they don't go together.
pub fn lines_request<'a>(matches: &ArgMatches<'a>) -> Result<LinesRequest<'a>, Fault<'a>> {
    request_of(&LineArguments {
        format: place_of(matches, "format"),
        iv: text_of(matches, "iv"),
        algorithm: text_of(matches, "algorithm"),
        iterations: number_of(matches, "iterations"),
        secret: secret_of(matches)?,
        is_base64: is_set(matches, "base64"),
        writes_digits: is_set(matches, "hex"),
        keeps_going: is_set(matches, "keep-going"),
        input: text_of(matches, "in"),
        output: text_of(matches, "out"),
        shows_progress: is_set(matches, "progress"),
    })
}
