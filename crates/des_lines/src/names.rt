//! What the faults of a calculation are about: an option, a place in the command line, or the name
//! of what is read. None of these is a secret.

ghost use Rattle.std.specs.Prelude.{IsTrue};
ghost use Rattle.des_lines.specs.Names.{is_place, IsSubject};

use crate::fault::{FaultKind, Field};
use crate::requests::{Account, Calculation, CalculationRequest, KeyBlockCalculation};
use crate::source::Source;
use des_key_blocks::key_block_error::KeyBlockError;
use des_payment::emv_error::EmvError;
use des_payment::{CvvError, PinError, TranslationError, VerificationError};

// ---- what is read

/// What a fault of the input is about.
pub fn input_name<'a>(request: &CalculationRequest<'a>) -> &'a str
    ensures { IsSubject request.now result.now }
{
    match request.calculation {
        Calculation::CombineBytes { .. } => "--part-file",
        _ => request.input.name(),
    }
}

/// What a fault of the account number is about.
pub fn account_name<'a>(request: &CalculationRequest<'a>) -> &'a str
    ensures { IsSubject request.now result.now }
{
    match request.account {
        Account::In(source) => source.name(),
        _ => "--account",
    }
}

/// What a fault of the key is about, also if the key is the input.
pub fn key_name<'a>(request: &CalculationRequest<'a>) -> &'a str
    ensures { IsSubject request.now result.now }
{
    match (request.calculation, request.key) {
        (_, None) => input_name(request),
        (Calculation::KeyBlock(_), Some(Source::Descriptor(_))) => "--protection-key-fd",
        (Calculation::KeyBlock(_), Some(Source::Variable(_))) => "--protection-key-env",
        (_, Some(source)) => source.name(),
    }
}

/// What a fault of the key of an outgoing block is about, or of the key that is wrapped, which is
/// the input.
pub fn to_key_name<'a>(request: &CalculationRequest<'a>) -> &'a str
    ensures { IsSubject request.now result.now }
{
    match request.to_key {
        Some(Source::Descriptor(_)) => "--to-key-fd",
        Some(Source::Variable(_)) => "--to-key-env",
        Some(source) => source.name(),
        None => input_name(request),
    }
}

// ---- faults

// What a fault of a verification is about.
fn about_of_verification<'a>(error: VerificationError, request: &CalculationRequest<'a>) -> &'a str
    ensures { IsSubject request.now result.now }
{
    match error {
        VerificationError::AccountLength | VerificationError::AccountDigit => {
            account_name(request)
        }
        VerificationError::KeyIndex => "--index",
        VerificationError::KeyLength => key_name(request),
        VerificationError::PinLength => "--length",
        VerificationError::TableLength
        | VerificationError::TableDigit
        | VerificationError::TableVariety => "--table",
        VerificationError::WrongPin => input_name(request),
    }
}

// What a fault of a card's keys and cryptograms is about.
fn about_of_emv<'a>(error: EmvError, request: &CalculationRequest<'a>) -> &'a str
    ensures { IsSubject request.now result.now }
{
    match error {
        EmvError::AccountLength | EmvError::AccountDigit => account_name(request),
        EmvError::SequenceLength | EmvError::SequenceDigit => "--sequence",
        EmvError::DataLength => "--data",
    }
}

// What a fault of a key block is about: the key that protects it; of one that is made, the key that
// it holds or an option, and of one that is read the block.
fn about_of_key_block<'a>(error: KeyBlockError, request: &CalculationRequest<'a>) -> &'a str
    ensures { IsSubject request.now result.now }
{
    let is_made = matches!(
        request.calculation,
        Calculation::KeyBlock(KeyBlockCalculation::Wrap(_))
    );
    match (error, is_made) {
        (KeyBlockError::ProtectionKeyLength, _) => key_name(request),
        (KeyBlockError::Version, true) => "--version",
        (KeyBlockError::KeyLength, true) => input_name(request),
        (_, true) => "--optional",
        (_, false) => input_name(request),
    }
}

fn option_of(field: Field) -> &'static str
    ensures { IsTrue (is_place result.now) }
{
    match field {
        Field::Usage => "--usage",
        Field::Algorithm => "--algorithm",
        Field::Mode => "--mode",
        Field::KeyVersion => "--key-version",
        Field::Exportability => "--exportability",
    }
}

// What a fault of a fill digit is about: the block that has it, or the option that gives it.
fn fill_name<'a>(request: &CalculationRequest<'a>) -> &'a str
    ensures { IsSubject request.now result.now }
{
    match request.calculation {
        Calculation::Decode { .. } => input_name(request),
        _ => "--fill",
    }
}

/// What a fault of a calculation is about.
pub fn about_of<'a>(kind: FaultKind, request: &CalculationRequest<'a>) -> &'a str
    ensures { IsSubject request.now result.now }
{
    match kind {
        FaultKind::Components => "--count",
        FaultKind::SerialLength | FaultKind::SerialText | FaultKind::SerialCounter => "SERIAL",
        FaultKind::FillLength | FaultKind::FillText => "--fill",
        FaultKind::CheckDigit
        | FaultKind::Pin(PinError::AccountLength | PinError::AccountDigit)
        | FaultKind::Cvv(CvvError::AccountLength | CvvError::AccountDigit)
        | FaultKind::Translation(
            TranslationError::AccountLength | TranslationError::AccountDigit,
        ) => { account_name(request) }
        FaultKind::Pin(PinError::Fill) | FaultKind::Translation(TranslationError::Fill) => {
            fill_name(request)
        }
        FaultKind::Cvv(CvvError::ExpiryLength | CvvError::ExpiryDigit) => "--expiry",
        FaultKind::Cvv(CvvError::ServiceLength | CvvError::ServiceDigit) => "--service",
        FaultKind::Verification(error) => about_of_verification(error, request),
        FaultKind::Emv(error) => about_of_emv(error, request),
        FaultKind::KeyLength(_) | FaultKind::KeyText => key_name(request),
        FaultKind::ToKeyLength | FaultKind::ToKeyText => to_key_name(request),
        FaultKind::Value => "--value",
        FaultKind::Offset => "--offset",
        FaultKind::Validation => "--validation",
        FaultKind::Counter => "--counter",
        FaultKind::Cryptogram => "--cryptogram",
        FaultKind::ResponseCode => "--code",
        FaultKind::CardStatus => "--status",
        FaultKind::IssuerData => "--data",
        FaultKind::Field(field) => option_of(field),
        FaultKind::KeyBlock(error) => about_of_key_block(error, request),
        FaultKind::Memory => "",
        _ => input_name(request),
    }
}
