//! What is written of an answer or a fault, and the status that the program ends with.

ghost use Rattle.std.specs.Prelude.{OnOk};
ghost use Rattle.std.specs.Io.KnownBytes.{Appends};
ghost use Rattle.des_tool.specs.Fault.{line_of};
ghost use Rattle.des_tool.specs.Status.{AppendsPrefix, IsShown};

use super::fault::Fault;
use std::io::{self, Error, ErrorKind, Write};

// The statuses that the program ends with.
const ANSWER_WRITTEN: u8 = 0;

const ARGUMENTS_AT_FAULT: u8 = 2;

const MEMORY_REFUSED: u8 = 3;

const ANSWER_NOT_WRITTEN: u8 = 4;

impl Fault {
    ghost use Rattle.std.specs.Prelude.{◌≡◌};
    ghost use Rattle.des_tool.specs.Status.{status_of};

    // The status that the program ends with.
    fn status(self) -> u8
        ensures { result ≡ status_of self }
    {
        match self {
            Fault::Memory => MEMORY_REFUSED,
            _ => ARGUMENTS_AT_FAULT,
        }
    }
}

/// Writes an answer to `out`, or a fault's name and a newline to `err`, and gives the status that
/// the program ends with.
///
/// The status is 0 if the whole answer was written, 2 if the arguments are at fault, 3 if
/// memory is, and 4 if the answer could not be written: `out` may then hold a prefix of it. A
/// name that cannot be written changes no status. It takes no memory of its own.
///
/// No clause says that the status is 4 only if `out` failed, since std has no word for that; runs
/// of the program show it.
pub fn show<W: Write, E: Write>(answer: &Result<Vec<u8>, Fault>, out: &mut W, err: &mut E) -> u8
    ensures { IsShown W.contents E.contents answer.now result out.old out.new err.old err.new }
{
    match answer {
        Ok(text) => match write_whole(out, text.as_slice()) {
            Ok(()) => ANSWER_WRITTEN,
            Err(_) => ANSWER_NOT_WRITTEN,
        },
        Err(fault) => {
            let _ = report(*fault, err);
            fault.status()
        }
    }
}

// Writes the bytes and flushes. If that fails, a prefix of them is written. A write that was
// interrupted is tried again.
fn write_whole<W: Write>(out: &mut W, bytes: &[u8]) -> io::Result<()>
    ensures part { AppendsPrefix (W.contents out.old) (W.contents out.new) bytes.now }
    ensures whole { OnOk result (Appends (W.contents out.old) (W.contents out.new) bytes.now) }
{
    let mut at = 0;
    for _ in 0..u64::MAX {
        if at >= bytes.len() {
            return out.flush();
        }
        match out.write(&bytes[at..]) {
            Ok(0) => return Err(Error::from(ErrorKind::WriteZero)),
            Ok(n) => at += n,
            Err(error) => {
                if error.kind() != ErrorKind::Interrupted {
                    return Err(error);
                }
            }
        }
    }
    // A writer that is interrupted again and again, and never ends.
    Err(Error::from(ErrorKind::TimedOut))
}

fn report<E: Write>(fault: Fault, err: &mut E) -> io::Result<()>
    ensures part { AppendsPrefix (E.contents err.old) (E.contents err.new) (line_of fault) }
    ensures whole { OnOk result
        (Appends (E.contents err.old) (E.contents err.new) (line_of fault)) }
{
    write_whole(err, fault.name().as_bytes())?;
    write_whole(err, b"\n")
}
