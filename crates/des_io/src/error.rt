//! What can fail between a reader and a writer.

ghost use Rattle.std.specs.Prelude.{◌≡◌};
ghost use Rattle.std.specs.IoError.{error_kind};

use std::io::{Error, ErrorKind};
use std::{fmt, io};

/// Why a stream ended early.
#[derive(Debug, Drop)]
pub enum StreamError {
    /// The reader failed, and was not only interrupted.
    Read(io::Error),
    /// The writer failed, and was not only interrupted, or it took nothing.
    Write(io::Error),
    /// The input is not whole blocks: this number of bytes follow the last whole one.
    Length(usize),
    /// The input has no block where the part begins, or none for the vector.
    Start,
    /// The padding is wrong.
    Padding,
}

/// Writes what failed, in plain words.
impl fmt::Display for StreamError {
    fn fmt<W: fmt::Write>(&self, f: &mut fmt::Formatter<W>) -> fmt::Result {
        match self {
            StreamError::Read(error) => write!(f, "the input cannot be read: {error}"),
            StreamError::Write(error) => write!(f, "the output cannot be written: {error}"),
            StreamError::Length(past) => {
                write!(
                    f,
                    "the input has {past} bytes after its last whole block of 8"
                )
            }
            StreamError::Start => f.write_str("the input has no block where the part begins"),
            StreamError::Padding => f.write_str("the padding is wrong"),
        }
    }
}

// The error if a loop has run 2^64 - 1 times, which no process lives to see: a loop over a reader
// or a writer has an end of its own, since each call is proved to return.
pub(crate) fn without_end() -> Error
    ensures { error_kind result ≡ ErrorKind.TimedOut }
{
    Error::from(ErrorKind::TimedOut)
}
