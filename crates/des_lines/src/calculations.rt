//! The run of a calculation: its line or its fault, what is written of it, and the status that the
//! program ends with.

ghost use Rattle.std.specs.Prelude.{◌≡◌, ◌↔◌, ◌≤◌, length, IsTrue, IfOk};
ghost use Rattle.des_lines.specs.CheckDigits.{lacks_check_digit as lacks_check_digit_of};
ghost use Rattle.des_lines.specs.Lines.{IsLine};
ghost use Rattle.des_lines.specs.Runs.{FailsAsAsked, IsOutcome, IsNoticed, IsNo, IsRun};

use crate::check_digit::{has_check_digit, is_account};
use crate::digits::Lines;
use crate::fault::{Fault, FaultKind};
use crate::lines::{WEAK, lines_of};
use crate::names::{about_of, account_name};
use crate::report::{show, tell};
use crate::requests::{Calculation, CalculationRequest, Inputs, MAX_INPUT, PinCalculation};
use crate::sentences::Sentences;
use crate::tags::{WRONG, status_of};
use std::alloc::Global;
use std::io::Write;

// Whether a text is an account number whose last digit is not its check digit.
fn lacks_check_digit(account: &[u8]) -> bool
    ensures { result ≡ lacks_check_digit_of account.now }
{
    is_account(account) && !has_check_digit(account)
}

// The line, unless the account number is refused.
fn line_by(alloc: Global, request: &CalculationRequest, inputs: Inputs) -> Lines
    requires { length inputs.text.now ≤ MAX_INPUT }
    ensures fault { FailsAsAsked request.now inputs.entry result }
    ensures line { IfOk result (λ line. IsLine request.now.calculation inputs.entry line.items) }
{
    if request.refuses_wrong_check_digit && lacks_check_digit(inputs.account) {
        return Err(FaultKind::CheckDigit);
    }
    lines_of(alloc, request.calculation, inputs)
}

// The line, or its fault with what that is about.
fn outcome_of<'a>(
    alloc: Global,
    request: &CalculationRequest<'a>,
    inputs: Inputs,
) -> Result<Vec<u8>, Fault<'a>>
    requires { length inputs.text.now ≤ MAX_INPUT }
    ensures { IsOutcome request.now inputs.entry result }
{
    match line_by(alloc, request, inputs) {
        Ok(line) => Ok(line),
        Err(kind) => Err(Fault {
            kind,
            about: about_of(kind, request),
        }),
    }
}

// Writes the line of a wrong check digit to `err`, unless it is refused. A line that can't be
// written is no fault.
fn tell_check_digit<S: Sentences, E: Write>(
    request: &CalculationRequest,
    account: &[u8],
    err: &mut E,
)
    ensures { IsNoticed S.says E.contents request.now account.now err.old err.new }
{
    if !request.refuses_wrong_check_digit && lacks_check_digit(account) {
        let _ = tell::<S, E>(
            Fault {
                kind: FaultKind::CheckDigit,
                about: account_name(request),
            },
            err,
        );
    }
}

// Whether the answer is no: the line says that a PIN is wrong, or that a key is weak.
fn is_no(calculation: Calculation, outcome: &Result<Vec<u8>, Fault>) -> bool
    ensures { IsTrue result ↔ IsNo calculation.entry outcome.now }
{
    match (calculation, outcome) {
        (Calculation::Weak, Ok(line)) => line.as_slice() == WEAK.as_bytes(),
        (
            Calculation::Pin(
                PinCalculation::VerifyPvv { .. } | PinCalculation::VerifyOffset { .. },
            ),
            Ok(line),
        ) => line.as_slice() == WRONG.as_bytes(),
        _ => false,
    }
}

/// Writes the line of a calculation to `out`, by what was read for it, or the line of its fault to
/// `err`. A notice on a wrong check digit is written to `err` first, unless that is a fault.
/// Returns the status that the program ends with: 0 if the whole line was written, and 1 if that
/// says no; 4 if it was not, or that of the fault.
pub fn run<S: Sentences, W: Write, E: Write>(
    alloc: Global,
    request: &CalculationRequest,
    inputs: Inputs,
    out: &mut W,
    err: &mut E,
) -> u8
    requires { length inputs.text.now ≤ MAX_INPUT }
    ensures { IsRun S.says W.contents E.contents request.now inputs.entry result
        out.old out.new err.old err.new }
{
    tell_check_digit::<S, E>(request, inputs.account, err);
    let outcome = outcome_of(alloc, request, inputs);
    let no = is_no(request.calculation, &outcome);
    status_of(show::<S, W, E>(&outcome, out, err), no)
}
