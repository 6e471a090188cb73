//! The run of `mac`: the key, the message, and its tag, which is shown or verified.

ghost use Rattle.std.specs.Prelude.{IfOk, IfSome};
ghost use Rattle.des_lines.specs.Keys.{IsKeySize};
ghost use Rattle.des_commands.specs.Macs.{IsTagOfDigits, tag_by};

use super::streams::tell_hex;
use crate::inputs::files;
use crate::inputs::secrets::key_in;
use crate::mac::tag_of;
use crate::outputs::notices::{self, Notice};
use des_lines::fault::{Fault, FaultKind};
use des_lines::report::show;
use des_lines::sentences::English;
use des_lines::source::Source;
use des_lines::tags::{status_of, tag_line, tag_of_digits, verification};
use des_passwords::{HexReader, HexTextReader};
use des_requests::command::{MacRequest, Method, Question};
use std::io::Read;

// The bytes of a message that are read at a time: 64 KiB.
const BYTES_AT_A_TIME: usize = 65536;

// The tag of a message, or the status of a fault that was reported.
type Tagged = Result<[u8; 8], u8>;

// The bytes of a method's keys, if they have one size.
fn key_size_of(method: Method) -> Option<u8>
    ensures { IfSome result IsKeySize }
{
    match method {
        Method::Retail(_) => Some(16),
        _ => None,
    }
}

// The tag of the bytes whose digits a reader gives. A text with other characters is reported.
fn tag_of_text<R: Read + Drop>(
    rt: &HostRuntime,
    request: &MacRequest,
    key: &[u8],
    reader: R,
) -> Result<Tagged, FaultKind>
    ensures { IfOk result (λ tagged. IfOk tagged
        (IsTagOfDigits (tag_by request.now.method key.now) (R.remaining reader))) }
{
    let mut buffer = vec![in rt.alloc(); 0u8; BYTES_AT_A_TIME]?;
    let mut reader = HexReader::new(reader);
    let outcome = tag_of(request.method, key, &mut reader, &mut buffer);
    match reader.fault() {
        Some(fault) => Ok(Err(tell_hex(rt, fault, request.message.name())?)),
        None => Ok(Ok(outcome?)),
    }
}

// The tag of what a reader gives. If that is hexadecimal digits alone, a line says so.
fn tag_of_bytes<R: Read + Drop>(
    rt: &HostRuntime,
    request: &MacRequest,
    key: &[u8],
    reader: R,
) -> Result<Tagged, FaultKind> {
    let mut buffer = vec![in rt.alloc(); 0u8; BYTES_AT_A_TIME]?;
    let mut reader = HexTextReader::new(reader);
    let tag = tag_of(request.method, key, &mut reader, &mut buffer)?;
    if reader.is_hexadecimal() {
        let _ = notices::tell(
            Notice::Hexadecimal,
            request.message.name(),
            &mut rt.stderr(),
        );
    }
    Ok(Ok(tag))
}

fn tag_of_reader<R: Read + Drop>(
    rt: &HostRuntime,
    request: &MacRequest,
    key: &[u8],
    reader: R,
) -> Result<Tagged, FaultKind> {
    if request.is_hexadecimal {
        tag_of_text(rt, request, key, reader)
    } else {
        tag_of_bytes(rt, request, key, reader)
    }
}

// The tag of a message.
fn tag_of_message(rt: &HostRuntime, request: &MacRequest, key: &[u8]) -> Result<Tagged, FaultKind> {
    match request.message {
        Source::File(path) => tag_of_reader(rt, request, key, files::open(rt, path)?.file),
        _ => tag_of_reader(rt, request, key, rt.stdin()),
    }
}

// The tag of the message under the key.
fn tag_for<'a>(rt: &HostRuntime, request: &MacRequest<'a>) -> Result<Tagged, Fault<'a>> {
    let key = key_in(rt, request.key, key_size_of(request.method))?;
    let message = request.message.name();
    tag_of_message(rt, request, key.as_slice()).map_err(|kind| Fault::about(kind, message))
}

// Writes the line of an answer, and returns the status.
fn show_answer(rt: &HostRuntime, line: Vec<u8>, is_no: bool) -> u8 {
    let written = show::<English, _, _>(&Ok(line), &mut rt.stdout(), &mut rt.stderr());
    status_of(written, is_no)
}

// Writes whether these are the digits of the tag's first bytes, and returns the status.
fn verify_status<'a>(
    rt: &HostRuntime,
    request: &MacRequest<'a>,
    digits: &str,
) -> Result<u8, Fault<'a>> {
    let given = tag_of_digits(rt.alloc(), digits.as_bytes()).map_err(|kind| Fault::about(
        kind, "--verify",
    ))?;
    match tag_for(rt, request)? {
        Ok(tag) => {
            let (line, is_no) = verification(rt.alloc(), &tag, given.as_slice())?;
            Ok(show_answer(rt, line, is_no))
        }
        Err(status) => Ok(status),
    }
}

/// Writes the first bytes of the tag, or whether they are others, and returns the status.
pub fn mac_status<'a>(rt: &HostRuntime, request: &MacRequest<'a>) -> Result<u8, Fault<'a>> {
    match request.question {
        Question::Print(count) => match tag_for(rt, request)? {
            Ok(tag) => Ok(show_answer(rt, tag_line(rt.alloc(), &tag, count)?, false)),
            Err(status) => Ok(status),
        },
        Question::Verify(digits) => verify_status(rt, request, digits),
    }
}
