//! Why there is no card verification value.

ghost use Rattle.std.specs.Prelude.{◌≡◌};
ghost use Rattle.des_payment.specs.CardVerification.{name_of};

use std::error::Error;
use std::fmt;

/// Why there is no card verification value. The first of them is reported, in this order.
#[derive(Clone, Copy, Debug, PartialEq, Eq)]
pub enum CvvError {
    /// The account number does not have 12 to 19 digits.
    AccountLength,
    /// A character of the account number is not a digit.
    AccountDigit,
    /// The expiry date does not have four digits.
    ExpiryLength,
    /// A character of the expiry date is not a digit.
    ExpiryDigit,
    /// The service code does not have three digits.
    ServiceLength,
    /// A character of the service code is not a digit.
    ServiceDigit,
}

/// The error's name.
pub fn name(error: CvvError) -> &'static str
    ensures { result.now ≡ name_of error }
{
    match error {
        CvvError::AccountLength => "AccountLength",
        CvvError::AccountDigit => "AccountDigit",
        CvvError::ExpiryLength => "ExpiryLength",
        CvvError::ExpiryDigit => "ExpiryDigit",
        CvvError::ServiceLength => "ServiceLength",
        CvvError::ServiceDigit => "ServiceDigit",
    }
}

/// Writes the error's name, whatever options are set.
impl fmt::Display for CvvError {
    ghost use Rattle.std.specs.Prelude.{Some};
    ghost use Rattle.des_payment.specs.CardVerification.{name_of};

    ghost output = { λ error. Some (name_of error) };

    ghost styled_output = { λ error _. Some (name_of error) };

    fn fmt<W: fmt::Write>(&self, f: &mut fmt::Formatter<W>) -> fmt::Result {
        f.write_str(name(*self))
    }
}

impl Error for CvvError {}
