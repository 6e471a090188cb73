//! Why a line has no answer, and the line that tells of it.

ghost use Rattle.std.specs.Prelude.{◌≡◌, OnOk, IfErr};
ghost use Rattle.std.specs.Io.KnownBytes.{Appends};
ghost use Rattle.des_lines.specs.declared.fault.FaultKind.TheVariants.{Memory};
ghost use Rattle.des_lines.specs.Written.{AppendsPrefix};
ghost use Rattle.des_commands.specs.LineFaults.{about_line, fault_line, name_of, sentence_of};

use des_io::StreamError;
use des_lines::fault::FaultKind;
use des_lines::report::write_line;
use std::alloc::Global;
use std::io::Write;

/// Why a line has no answer. None has a place for what stands in the line.
#[derive(Clone, Copy, PartialEq, Eq)]
pub enum LineFault {
    /// A character is not a hexadecimal digit.
    Digit,
    /// The number of hexadecimal digits is odd.
    DigitCount,
    Base64,
    /// MySQL takes the value for no ciphertext.
    NotEncrypted,
    /// No key has the number that the value names.
    KeyNumber,
    /// What is encrypted is not whole blocks.
    Length,
    /// Jasypt: the value is shorter than its salt.
    Salt,
    Padding,
    /// The text can't stand in a line as it is.
    Unprintable,
}

impl LineFault {
    fn name(self) -> &'static str
        ensures { result.now ≡ name_of self }
    {
        match self {
            LineFault::Digit => "HexText",
            LineFault::DigitCount => "HexLength",
            LineFault::Base64 => "Base64",
            LineFault::NotEncrypted => "NotEncrypted",
            LineFault::KeyNumber => "KeyNumber",
            LineFault::Length => "Length",
            LineFault::Salt => "SaltCut",
            LineFault::Padding => "Padding",
            LineFault::Unprintable => "Unprintable",
        }
    }

    fn words(self) -> &'static str
        ensures { result.now ≡ sentence_of self }
    {
        match self {
            LineFault::Digit => "a character is not a hexadecimal digit",
            LineFault::DigitCount => "the number of hexadecimal digits is odd",
            LineFault::Base64 => "it is not Base64",
            LineFault::NotEncrypted => "the value is not encrypted",
            LineFault::KeyNumber => "the value names a key that is not given",
            LineFault::Length => "the value ends within a block of 8 bytes",
            LineFault::Salt => "the value ends within the salt",
            LineFault::Padding => "wrong key, password, format or padding",
            LineFault::Unprintable =>
                "the text is not printable UTF-8 in one line: --hex writes digits",
        }
    }
}

/// Writes the line of a fault. `about` is the input and the number of the line.
pub fn tell<E: Write>(fault: LineFault, about: &str, err: &mut E) -> Result<(), StreamError>
    ensures part { AppendsPrefix (E.contents err.old) (E.contents err.new)
        (fault_line fault about.now) }
    ensures whole { OnOk result (Appends (E.contents err.old) (E.contents err.new)
        (fault_line fault about.now)) }
{
    write_line(fault.name(), about, fault.words(), err)
}

/// Tells of the fault of a line of an input, by the number of the line. The fault is `Memory`, and
/// then nothing is written, or that of `err`.
pub fn tell_line<E: Write>(
    alloc: Global,
    fault: LineFault,
    name: &str,
    line: u64,
    err: &mut E,
) -> Result<(), FaultKind>
    ensures part { AppendsPrefix (E.contents err.old) (E.contents err.new)
        (fault_line fault (about_line name.now line)) }
    ensures whole { OnOk result (Appends (E.contents err.old) (E.contents err.new)
        (fault_line fault (about_line name.now line))) }
    ensures memory { IfErr result (λ kind. kind ≡ Memory → err.new ≡ err.old) }
{
    let about = format!(in alloc; "{name}: line {line}")?;
    Ok(tell(fault, about.as_str(), err)?)
}
