//! How secrets and other short inputs are read.

ghost use Rattle.std.specs.Prelude.{◌≡◌, ◌≤◌, ◌<◌, length, IfOk, IfErr};
ghost use Rattle.des_commands.specs.Sources.{IsAllOf, FailsToGive};

use super::files::{self, reader_fault};
use des_io::pieces::fill;
use des_lines::digits::strip;
use des_lines::fault::{FaultKind, Reason};
use des_lines::source::Source;
use std::alloc::Global;
use std::env::{self, VarError};
use std::io::Read;

/// The bytes that an input has at most, white space among them.
pub const MAX_TEXT: usize = 4096;

/// All that a reader has. The fault is `InputLength` if that is more than `longest` bytes,
/// `Read` if the reader failed, or `Memory`.
pub fn bytes_of_reader<R: Read>(
    alloc: Global,
    reader: &mut R,
    longest: usize,
) -> Result<Vec<u8>, FaultKind>
    requires { longest < 100000 }
    ensures all { IfOk result (λ bytes.
        IsAllOf longest bytes.items (R.remaining reader.old) (R.remaining reader.new)) }
    ensures bound { IfOk result (λ bytes. length bytes.items ≤ longest) }
    ensures fault { IfErr result (FailsToGive longest (R.remaining reader.old) (R.remaining reader.new)) }
{
    let mut bytes = vec![in alloc; 0u8; longest + 1]?;
    let n = fill(reader, &mut bytes).map_err(reader_fault)?;
    if n > longest {
        return Err(FaultKind::InputLength);
    }
    bytes.truncate(n);
    Ok(bytes)
}

fn bytes_of_file(rt: &HostRuntime, path: &str, longest: usize) -> Result<Vec<u8>, FaultKind>
    requires { longest < 100000 }
    ensures { IfOk result (λ bytes. length bytes.items ≤ longest) }
{
    let mut input = files::open(rt, path)?;
    bytes_of_reader(rt.alloc(), &mut input.file, longest)
}

fn bytes_of_variable(rt: &HostRuntime, name: &str, longest: usize) -> Result<Vec<u8>, FaultKind>
    ensures { IfOk result (λ bytes. length bytes.items ≤ longest) }
{
    match env::var(rt, name) {
        Ok(value) if value.len() > longest => Err(FaultKind::InputLength),
        Ok(value) => Ok(value.into_bytes()),
        Err(VarError::OutOfMemory) => Err(FaultKind::Memory),
        Err(_) => Err(FaultKind::Variable),
    }
}

/// The bytes of a source, at most `longest`. The fault is `InputLength` if there are more,
/// `Read` if the system refused it, `Variable` or `Memory`.
pub fn bytes_of(rt: &HostRuntime, source: Source, longest: usize) -> Result<Vec<u8>, FaultKind>
    requires { longest < 100000 }
    ensures { IfOk result (λ bytes. length bytes.items ≤ longest) }
{
    match source {
        Source::StandardInput => bytes_of_reader(rt.alloc(), &mut rt.stdin(), longest),
        Source::File(path) => bytes_of_file(rt, path, longest),
        // It is opened by its name, and read from where it stands.
        Source::Descriptor(number) => {
            let path = format!(in rt.alloc(); "/dev/fd/{number}")?;
            bytes_of_file(rt, path.as_str(), longest)
        }
        Source::Variable(name) => bytes_of_variable(rt, name, longest),
    }
}

// Whether a text has several lines, line ends at its own ends apart. Some systems end a line by a
// carriage return alone.
fn has_lines(text: &[u8]) -> bool {
    text.trim_ascii()
        .iter()
        .any(|byte| matches!(*byte, b'\n' | b'\r'))
}

/// The text of a source that has one line, without its white space, of `MAX_TEXT` bytes at most. The
/// fault is `InputLines` if there are several lines, which would else become one value, or one of
/// those of `bytes_of`.
pub fn line_of(rt: &HostRuntime, source: Source) -> Result<Vec<u8>, FaultKind>
    ensures { IfOk result (λ text. length text.items ≤ MAX_TEXT) }
{
    let mut text = bytes_of(rt, source, MAX_TEXT)?;
    if has_lines(text.as_slice()) {
        return Err(FaultKind::InputLines);
    }
    strip(&mut text);
    Ok(text)
}

/// The text of a source, of any number of lines, without its white space, of `MAX_TEXT` bytes at
/// most. The faults are those of `bytes_of`.
pub fn text_of(rt: &HostRuntime, source: Source) -> Result<Vec<u8>, FaultKind>
    ensures { IfOk result (λ text. length text.items ≤ MAX_TEXT) }
{
    let mut text = bytes_of(rt, source, MAX_TEXT)?;
    strip(&mut text);
    Ok(text)
}
