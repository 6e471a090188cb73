//! Why there is no key of a card, or no response to it.

ghost use Rattle.std.specs.Prelude.{◌≡◌};
ghost use Rattle.des_payment.specs.CardCryptograms.{name_of};

use std::error::Error;
use std::fmt;

/// Why there is no key of a card, or no response to it. The first of them is reported, in this
/// order.
#[derive(Clone, Copy, Debug, PartialEq, Eq)]
pub enum EmvError {
    /// The account number does not have 8 to 19 digits.
    AccountLength,
    /// A character of the account number is not a digit.
    AccountDigit,
    /// The sequence number does not have two digits.
    SequenceLength,
    /// A character of the sequence number is not a digit.
    SequenceDigit,
    /// The issuer's data have more than eight bytes.
    DataLength,
}

/// The error's name.
pub fn name(error: EmvError) -> &'static str
    ensures { result.now ≡ name_of error }
{
    match error {
        EmvError::AccountLength => "AccountLength",
        EmvError::AccountDigit => "AccountDigit",
        EmvError::SequenceLength => "SequenceLength",
        EmvError::SequenceDigit => "SequenceDigit",
        EmvError::DataLength => "DataLength",
    }
}

/// Writes the error's name, whatever options are set.
impl fmt::Display for EmvError {
    ghost use Rattle.std.specs.Prelude.{Some};
    ghost use Rattle.des_payment.specs.CardCryptograms.{name_of};

    ghost output = { λ error. Some (name_of error) };

    ghost styled_output = { λ error _. Some (name_of error) };

    fn fmt<W: fmt::Write>(&self, f: &mut fmt::Formatter<W>) -> fmt::Result {
        f.write_str(name(*self))
    }
}

impl Error for EmvError {}
