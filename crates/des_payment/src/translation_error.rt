//! Why a PIN block is not translated.

ghost use Rattle.std.specs.Prelude.{◌≡◌};
ghost use Rattle.des_payment.specs.Translation.{name_of};

use std::error::Error;
use std::fmt;

/// Why a PIN block is not translated. The first of them is reported, in this order. All that can be
/// wrong with the block itself is one error: whoever could tell its faults apart would learn PINs.
#[derive(Clone, Copy, Debug, PartialEq, Eq)]
pub enum TranslationError {
    /// One of the keys does not have 8, 16 or 24 bytes.
    KeyLength,
    /// `translate` does not go from the one format to the other.
    Formats,
    /// The account number does not have 8 to 19 digits.
    AccountLength,
    /// A character of the account number is not a digit.
    AccountDigit,
    /// A fill digit is none of 10 to 15.
    Fill,
    /// Decrypted, the block is not a PIN block of its format.
    Block,
}

/// The error's name.
pub fn name(error: TranslationError) -> &'static str
    ensures { result.now ≡ name_of error }
{
    match error {
        TranslationError::KeyLength => "KeyLength",
        TranslationError::Formats => "Formats",
        TranslationError::AccountLength => "AccountLength",
        TranslationError::AccountDigit => "AccountDigit",
        TranslationError::Fill => "Fill",
        TranslationError::Block => "Block",
    }
}

/// Writes the error's name, whatever options are set.
impl fmt::Display for TranslationError {
    ghost use Rattle.std.specs.Prelude.{Some};
    ghost use Rattle.des_payment.specs.Translation.{name_of};

    ghost output = { λ error. Some (name_of error) };

    ghost styled_output = { λ error _. Some (name_of error) };

    fn fmt<W: fmt::Write>(&self, f: &mut fmt::Formatter<W>) -> fmt::Result {
        f.write_str(name(*self))
    }
}

impl Error for TranslationError {}
