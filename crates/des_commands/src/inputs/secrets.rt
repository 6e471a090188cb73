//! Texts, keys and passwords in their sources, or the fault with what it is about.

ghost use Rattle.std.specs.Prelude.{◌≤◌, length, IfOk, IfSome};
ghost use Rattle.des_lines.specs.Keys.{IsKeySize};

use super::sources::{MAX_TEXT, bytes_of, line_of};
use des_lines::fault::Fault;
use des_lines::keys::key_of_digits;
use des_lines::source::Source;
use des_passwords::text_lines::cut;

/// The text of a source that has one line, without its white space.
pub fn line_in<'a>(rt: &HostRuntime, source: Source<'a>) -> Result<Vec<u8>, Fault<'a>>
    ensures { IfOk result (λ text. length text.items ≤ MAX_TEXT) }
{
    line_of(rt, source).map_err(|kind| Fault::about(kind, source.name()))
}

/// The key in a source, of `size` bytes, or of 8, 16 or 24.
pub fn key_in<'a>(
    rt: &HostRuntime,
    source: Source<'a>,
    size: Option<u8>,
) -> Result<Vec<u8>, Fault<'a>>
    requires { IfSome size IsKeySize }
    ensures { IfOk result (λ key. IsKeySize (length key.items)) }
{
    let text = line_in(rt, source)?;
    let name = source.name();
    key_of_digits(rt.alloc(), text.as_slice(), size).map_err(|kind| Fault::about(kind, name))
}

/// What a fault of a password is about: its option, or standard input. The name of a file is not
/// shown, since somebody may have typed the password there.
pub fn password_name<'a>(source: Source<'a>) -> &'a str {
    match source {
        Source::File(_) => "--password-file",
        Source::Descriptor(_) => "--password-fd",
        Source::Variable(_) => "--password-env",
        Source::StandardInput => source.name(),
    }
}

/// The password in a source: the first line of a file, or the value of a variable.
pub fn password_in<'a>(rt: &HostRuntime, source: Source<'a>) -> Result<Vec<u8>, Fault<'a>> {
    let name = password_name(source);
    let mut text = bytes_of(rt, source, MAX_TEXT).map_err(|kind| Fault::about(kind, name))?;
    if let Source::Variable(_) = source {
        return Ok(text);
    }
    let size = cut(b'\n', text.as_slice()).0.len();
    text.truncate(size);
    Ok(text)
}
