//! Why a PIN block is not made, or holds no PIN.

ghost use Rattle.std.specs.Prelude.{◌≡◌};
ghost use Rattle.des_payment.specs.PinBlocks.{name_of};

use std::error::Error;
use std::fmt;

/// Why a PIN block is not made, or a block holds no PIN. The first of them is reported: if a
/// block is made, of the PIN, then of the account number, then of the fill digits; if a block is
/// read, of the account number, then in the order of the block's digits.
#[derive(Clone, Copy, Debug, PartialEq, Eq)]
pub enum PinError {
    /// The block's first digit is not that of the format.
    Format,
    /// The PIN does not have 4 to 12 digits, or the block's second digit is not the length of such
    /// a PIN.
    PinLength,
    /// A character of the PIN is not a digit, or a digit of the block's PIN is above 9.
    PinDigit,
    /// The account number does not have 8 to 19 digits.
    AccountLength,
    /// A character of the account number is not a digit.
    AccountDigit,
    /// A fill digit is none of those of the format.
    Fill,
}

/// The error's name.
pub fn name(error: PinError) -> &'static str
    ensures { result.now ≡ name_of error }
{
    match error {
        PinError::Format => "Format",
        PinError::PinLength => "PinLength",
        PinError::PinDigit => "PinDigit",
        PinError::AccountLength => "AccountLength",
        PinError::AccountDigit => "AccountDigit",
        PinError::Fill => "Fill",
    }
}

/// Writes the error's name, whatever options are set.
impl fmt::Display for PinError {
    ghost use Rattle.std.specs.Prelude.{Some};
    ghost use Rattle.des_payment.specs.PinBlocks.{name_of};

    ghost output = { λ error. Some (name_of error) };

    ghost styled_output = { λ error _. Some (name_of error) };

    fn fmt<W: fmt::Write>(&self, f: &mut fmt::Formatter<W>) -> fmt::Result {
        f.write_str(name(*self))
    }
}

impl Error for PinError {}
