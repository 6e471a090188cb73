//! The run of a calculation: what it takes is read, and its line is written.

ghost use Rattle.std.specs.Prelude.{◌≤◌, length, IfOk};

use crate::inputs::files::{RANDOM_SOURCE, system_random};
use crate::inputs::secrets::{key_in, line_in};
use crate::inputs::sources::{MAX_TEXT, bytes_of, line_of, text_of};
use des_lines::calculations;
use des_lines::fault::{Fault, FaultKind};
use des_lines::names::{input_name, key_name, to_key_name};
use des_lines::requests::{
    Account, Calculation, CalculationRequest, EmvCalculation, Inputs, KeyBlockCalculation,
    MAX_INPUT, MAX_RANDOM_BYTES, Wrapping,
};
use des_lines::sentences::English;
use des_lines::source::Source;
use des_requests::command::by_input;
use des_requests::sources::file_of;

// The most components that are in files: as many as `--count` takes of one source. Their digits are
// no longer than the text of one.
const MAX_PARTS: usize = 255;

// The digits of a key, if there is one beside the input.
fn key_text_in<'a>(
    rt: &HostRuntime,
    source: Option<Source<'a>>,
    name: &'a str,
) -> Result<Vec<u8>, Fault<'a>> {
    match source {
        Some(source) => line_of(rt, source).map_err(|kind| Fault::about(kind, name)),
        None => Ok(Vec::new(rt.alloc())),
    }
}

// The digits of an account number.
fn account_in<'a>(rt: &HostRuntime, account: Account<'a>) -> Result<Vec<u8>, Fault<'a>> {
    match account {
        Account::Absent => Ok(Vec::new(rt.alloc())),
        Account::Digits(digits) => Ok(Vec::from_slice(rt.alloc(), digits.as_bytes())?),
        Account::In(source) => line_in(rt, source),
    }
}

// The input: one value in a line, components or data in any number of lines, or a key block, of which
// white space inside may be a part.
fn input_in<'a>(rt: &HostRuntime, request: &CalculationRequest<'a>) -> Result<Vec<u8>, Fault<'a>>
    ensures { IfOk result (λ input. length input.items ≤ MAX_INPUT) }
{
    let input = match request.calculation {
        Calculation::KeyBlock(KeyBlockCalculation::Header | KeyBlockCalculation::Unwrap { .. }) =>
            bytes_of(rt, request.input, MAX_INPUT),
        Calculation::Combine { .. } | Calculation::Emv(EmvCalculation::Cryptogram) => {
            text_of(rt, request.input)
        }
        _ => line_of(rt, request.input),
    };
    input.map_err(|kind| Fault::about(kind, input_name(request)))
}

// The calculation for the digits of a key that is wrapped: 16 are a key of DES, if no algorithm was
// typed.
fn calculation_for<'a>(calculation: Calculation<'a>, digits: &[u8]) -> Calculation<'a> {
    match calculation {
        Calculation::KeyBlock(KeyBlockCalculation::Wrap(wrapping))
            if !wrapping.names_algorithm && digits.len() == 16 => Calculation::KeyBlock(
            KeyBlockCalculation::Wrap(Wrapping {
                algorithm: "D",
                ..wrapping
            }),
        ),
        calculation => calculation,
    }
}

fn run_by(rt: &HostRuntime, request: &CalculationRequest, inputs: Inputs) -> u8
    requires { length inputs.text.now ≤ MAX_INPUT }
{
    calculations::run::<English, _, _>(
        rt.alloc(),
        request,
        inputs,
        &mut rt.stdout(),
        &mut rt.stderr(),
    )
}

/// Reads what a calculation takes, writes its line, and returns the status.
pub fn calculation_status<'a>(
    rt: &HostRuntime,
    request: &CalculationRequest<'a>,
) -> Result<u8, Fault<'a>> {
    let account = account_in(rt, request.account)?;
    let key = key_text_in(rt, request.key, key_name(request))?;
    let to_key = key_text_in(rt, request.to_key, to_key_name(request))?;
    let input = input_in(rt, request)?;
    let random = match request.calculation {
        Calculation::KeyBlock(KeyBlockCalculation::Wrap(_)) => {
            system_random(rt).map_err(|kind| Fault::about(kind, RANDOM_SOURCE))?
        }
        _ => [0; MAX_RANDOM_BYTES],
    };
    // White space around a key block is no part of it.
    let text = match request.calculation {
        Calculation::KeyBlock(_) => input.trim_ascii(),
        _ => input.as_slice(),
    };
    let request = CalculationRequest {
        calculation: calculation_for(request.calculation, text),
        ..*request
    };
    let inputs = Inputs {
        text,
        account: account.as_slice(),
        key: key.as_slice(),
        to_key: to_key.as_slice(),
        random: &random,
    };
    Ok(run_by(rt, &request, inputs))
}

// ---- components in files

// Adds the bytes of components, each in a file: 8, 16 or 24 of the first, and as many of each
// other. Returns the number that each has, if there is any.
fn add_parts<'a>(
    rt: &HostRuntime,
    paths: &[&'a str],
    bytes: &mut Vec<u8>,
) -> Result<Option<u8>, Fault<'a>> {
    let mut size = None;
    for path in paths {
        let part = key_in(rt, file_of(path), size)?;
        bytes.extend_from_slice(part.as_slice())?;
        size = Some(part.len() as u8);
    }
    Ok(size)
}

/// Writes the line of the key of components, each in a file, and returns the status.
pub fn parts_status<'a>(rt: &HostRuntime, paths: &[&'a str]) -> Result<u8, Fault<'a>> {
    let mut bytes = Vec::new(rt.alloc());
    let size = add_parts(rt, paths, &mut bytes)?.unwrap_or(0);
    if paths.len() > MAX_PARTS || bytes.len() > MAX_TEXT / 2 {
        return Err(Fault::about(FaultKind::InputLength, "--part-file"));
    }
    // Its faults are about `--part-file`, wherever the input is said to be.
    let request = by_input(Calculation::CombineBytes { size }, Source::StandardInput);
    let inputs = Inputs {
        text: bytes.as_slice(),
        account: &[],
        key: &[],
        to_key: &[],
        random: &[0; MAX_RANDOM_BYTES],
    };
    Ok(run_by(rt, &request, inputs))
}
