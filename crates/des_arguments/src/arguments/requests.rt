//! The requests of calculations: their input, and the key and the account number beside it.

ghost use Rattle.std.specs.Prelude.{◌≡◌, ◌<◌, ◌≤◌, length, filter, IfOk, IfErr};
ghost use Rattle.des_lines.specs.declared.fault.FaultKind.TheVariants.{Usage};
ghost use Rattle.des_lines.specs.declared.fault.Misuse.TheVariants.{StandardInputTwice};
ghost use Rattle.des_arguments.specs.CommandArguments.{is_standard_input as is_standard_input_of, source_of as source_of_account, standard_inputs};

use super::argument_values::text_of;
use super::misuse::misuse;
use super::sources::{is_standard_input, key_of};
use clap::ArgMatches;
use des_lines::fault::{Fault, Misuse};
use des_lines::requests::{Account, Calculation, CalculationRequest};
use des_lines::source::Source;
use des_requests::command::by_input;
use des_requests::sources::file_of;

/// The request of a calculation, or the fault of its arguments.
pub type Requested<'a> = Result<CalculationRequest<'a>, Fault<'a>>;

// Where the account number is: one place.
fn account_of<'a>(matches: &ArgMatches<'a>) -> Result<Account<'a>, Fault<'a>> {
    let file = text_of(matches, "account-file");
    match (text_of(matches, "account"), file) {
        (Some(digits), None) => Ok(Account::Digits(digits)),
        (None, Some(path)) => Ok(Account::In(file_of(path))),
        _ => Err(misuse(Misuse::Account, "")),
    }
}

// Where an account number is, if it is no argument.
fn source_of<'a>(account: Account<'a>) -> Option<Source<'a>>
    ensures { result ≡ source_of_account account.entry }
{
    match account {
        Account::In(source) => Some(source),
        _ => None,
    }
}

fn count_standard_inputs(sources: &[Option<Source>]) -> usize
    ensures { result ≡ length (filter is_standard_input_of sources.now) }
{
    sources.iter().filter(|it| is_standard_input(**it)).count()
}

/// The request of a calculation whose input is the key.
pub fn by_key<'a>(calculation: Calculation<'a>, matches: &ArgMatches<'a>) -> Requested<'a> {
    Ok(by_input(calculation, key_of(matches)?))
}

// The request, unless it reads standard input twice.
fn read_each_once<'a>(request: CalculationRequest<'a>) -> Requested<'a>
    ensures once { IfOk result (λ read. (read ≡ request.entry) × (standard_inputs request.entry ≤ 1)) }
    ensures fault { IfErr result (λ fault.
        (1 < standard_inputs request.entry) × (fault.kind ≡ Usage StandardInputTwice)) }
{
    let account = source_of(request.account);
    let sources = [account, request.key, request.to_key, Some(request.input)];
    if count_standard_inputs(&sources) > 1 {
        return Err(misuse(Misuse::StandardInputTwice, ""));
    }
    Ok(request)
}

/// The request with the account number of the options.
pub fn with_account<'a>(
    request: CalculationRequest<'a>,
    matches: &ArgMatches<'a>,
) -> Requested<'a> {
    read_each_once(CalculationRequest {
        account: account_of(matches)?,
        refuses_wrong_check_digit: text_of(matches, "check-digit") == Some("refuse"),
        ..request
    })
}

/// The request with the key of the options beside its input.
pub fn with_key_of<'a>(request: CalculationRequest<'a>, matches: &ArgMatches<'a>) -> Requested<'a> {
    with_key(request, key_of(matches)?)
}

/// The request with a key beside its input.
pub fn with_key<'a>(request: CalculationRequest<'a>, key: Source<'a>) -> Requested<'a> {
    let key = Some(key);
    read_each_once(CalculationRequest { key, ..request })
}
