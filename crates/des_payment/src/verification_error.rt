//! Why a PIN is not verified.

ghost use Rattle.std.specs.Prelude.{◌≡◌};
ghost use Rattle.des_payment.specs.PinVerification.{name_of};

use std::error::Error;
use std::fmt;

/// Why there is no PIN verification value, natural PIN, offset or decimalization table, or why a
/// PIN is not accepted. The first of them is reported, in this order.
#[derive(Clone, Copy, Debug, PartialEq, Eq)]
pub enum VerificationError {
    /// The account number does not have 12 to 19 digits.
    AccountLength,
    /// A character of the account number is not a digit.
    AccountDigit,
    /// The index of the key is none of 1 to 6.
    KeyIndex,
    /// The key does not have 8, 16 or 24 bytes.
    KeyLength,
    /// A natural PIN does not have 4 to 12 digits.
    PinLength,
    /// The decimalization table does not have sixteen digits.
    TableLength,
    /// A character of the decimalization table is not a digit.
    TableDigit,
    /// The decimalization table has fewer than eight different digits.
    TableVariety,
    /// The PIN is wrong.
    WrongPin,
}

/// The error's name.
pub fn name(error: VerificationError) -> &'static str
    ensures { result.now ≡ name_of error }
{
    match error {
        VerificationError::AccountLength => "AccountLength",
        VerificationError::AccountDigit => "AccountDigit",
        VerificationError::KeyIndex => "KeyIndex",
        VerificationError::KeyLength => "KeyLength",
        VerificationError::PinLength => "PinLength",
        VerificationError::TableLength => "TableLength",
        VerificationError::TableDigit => "TableDigit",
        VerificationError::TableVariety => "TableVariety",
        VerificationError::WrongPin => "WrongPin",
    }
}

/// Writes the error's name, whatever options are set.
impl fmt::Display for VerificationError {
    ghost use Rattle.std.specs.Prelude.{Some};
    ghost use Rattle.des_payment.specs.PinVerification.{name_of};

    ghost output = { λ error. Some (name_of error) };

    ghost styled_output = { λ error _. Some (name_of error) };

    fn fmt<W: fmt::Write>(&self, f: &mut fmt::Formatter<W>) -> fmt::Result {
        f.write_str(name(*self))
    }
}

impl Error for VerificationError {}
