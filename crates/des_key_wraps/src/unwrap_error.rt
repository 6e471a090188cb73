//! The error of unwrapping.

ghost use Rattle.std.specs.Prelude.{codes, Some};

use std::error::Error;
use std::fmt;

/// The data are no key wrapped under this one: they were wrapped under another, or changed.
#[derive(Clone, Copy, Debug, PartialEq, Eq)]
pub struct UnwrapError;

/// Writes the type's name, whatever options are set.
impl fmt::Display for UnwrapError {
    ghost output = { λ _. Some (codes "UnwrapError") };

    ghost styled_output = { λ _ _. Some (codes "UnwrapError") };

    fn fmt<W: fmt::Write>(&self, f: &mut fmt::Formatter<W>) -> fmt::Result {
        f.write_str("UnwrapError")
    }
}

impl Error for UnwrapError {}
