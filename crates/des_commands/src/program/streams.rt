//! The run of `encrypt` and `decrypt`: the key or the password, random bytes, the input, and the
//! output.

use crate::inputs::base64_text::Base64TextReader;
use crate::inputs::files::{self, RANDOM_SOURCE, system_random};
use crate::inputs::secrets::{key_in, password_in, password_name};
use crate::outputs::notices::{self, Notice, accept_key};
use crate::outputs::targets::{self, Access, Target, output_name, refuse_terminal};
use crate::streams;
use crate::streams::passwords::{PasswordJob, check_password, run_by_password};
use crate::streams::progress_reader::ProgressReader;
use base64::engine::general_purpose::STANDARD;
use des_io::pieces::{fill, write_whole};
use des_lines::fault::{Fault, FaultKind, FileFault};
use des_lines::report::{send, tell};
use des_lines::sentences::English;
use des_lines::source::Source;
use des_passwords::salted::PREFIX;
use des_passwords::{Base64Reader, HexFault, HexReader, HexTextReader, HexWriter};
use des_requests::streams::{
    CipherMode, Coding, Secret, StreamMode, StreamRequest, Vector, blocks_before, heading_of,
    job_of,
};
use std::io::{Read, Write};

// A request, with what was read for it.
#[derive(Clone, Copy)]
struct StreamTask<'a> {
    request: &'a StreamRequest<'a>,
    // The key, or the password.
    secret: &'a [u8],
    // The random vector by a key, or the salt of what is encrypted by a password.
    random: [u8; 8],
    // The blocks of the input that are read and passed over.
    skipped: u64,
}

impl<'a> StreamTask<'a> {
    // Encrypts or decrypts to a writer, which is given the bytes, or their digits and a line end.
    fn run<R: Read, W: Write>(
        self,
        rt: &HostRuntime,
        reader: &mut R,
        writer: &mut W,
    ) -> Result<(), FaultKind> {
        match self.request.coding {
            Coding::Hexadecimal => {
                self.run_to_bytes(rt, reader, &mut HexWriter::new(&mut *writer))?;
                Ok(write_whole(writer, b"\n")?)
            }
            _ => self.run_to_bytes(rt, reader, writer),
        }
    }

    fn run_to_bytes<R: Read, W: Write>(
        self,
        rt: &HostRuntime,
        reader: &mut R,
        writer: &mut W,
    ) -> Result<(), FaultKind> {
        let request = self.request;
        match request.secret {
            Secret::Key(_) => {
                let heading = heading_of(request.vector, &self.random);
                let job = job_of(request, self.secret, self.random, heading, self.skipped);
                streams::run(rt.alloc(), &job, reader, writer)
            }
            Secret::Password(source, by) => {
                let job = PasswordJob {
                    request,
                    by,
                    password: self.secret,
                    salt: self.random,
                    skipped: self.skipped,
                    name: password_name(source),
                };
                run_by_password(rt.alloc(), &job, reader, writer, &mut rt.stderr())
            }
        }
    }
}

// ---- the output

// Writes where the request says.
fn run_to_output<R: Read>(
    rt: &HostRuntime,
    task: StreamTask,
    reader: &mut R,
) -> Result<(), FaultKind> {
    let request = task.request;
    match targets::open(
        rt,
        request.output,
        Access::OfFolder,
        request.secret.source(),
    )? {
        Target::StandardOutput => {
            targets::refuse_input(rt, request.input)?;
            task.run(rt, reader, &mut rt.stdout())
        }
        Target::AsItIs(mut file) => task.run(rt, reader, &mut file),
        Target::Replaced(mut file) => {
            let outcome = task.run(rt, reader, &mut file.file);
            let narrows = file.narrows;
            file.end(rt, outcome)?;
            if narrows {
                let about = output_name(request.output);
                let _ = notices::tell(Notice::Permissions, about, &mut rt.stderr());
            }
            Ok(())
        }
    }
}

// ---- the input

// Whether an outcome may be due to digits or Base64 that were taken as bytes, and not to a reader
// or a writer that failed.
fn is_of_content(outcome: &Result<(), FaultKind>) -> bool {
    matches!(
        outcome,
        Ok(())
            | Err(
                FaultKind::Length
                    | FaultKind::Padding
                    | FaultKind::Start
                    | FaultKind::File(FileFault::NotSalted)
            )
    )
}

// Reads from a reader, and writes where the request says.
fn run_reader<R: Read + Drop>(
    rt: &HostRuntime,
    task: StreamTask,
    reader: R,
    total: Option<u64>,
) -> Result<(), FaultKind> {
    let request = task.request;
    let mut base64 = Base64TextReader::new(reader);
    let mut text = HexTextReader::new(&mut base64);
    let mut reader = ProgressReader::new(rt, &mut text, request, total);
    let outcome = run_to_output(rt, task, &mut reader);
    reader.end();
    if matches!(request.coding, Coding::Bytes) && is_of_content(&outcome) {
        let input = request.input.name();
        if text.is_hexadecimal() {
            let _ = notices::tell(Notice::Hexadecimal, input, &mut rt.stderr());
        } else if !request.encrypts && base64.is_base64() {
            let _ = notices::tell(Notice::Base64, input, &mut rt.stderr());
        }
    }
    outcome
}

// What a text of Base64 begins with, whose bytes begin with `Salted__`.
const PREFIX_IN_BASE64: [u8; 8] = *b"U2FsdGVk";

// Reads the input from its beginning. To decrypt, input that begins with `Salted__` is refused
// unless the arguments announce a salt, and input that begins with its Base64 always is.
fn run_from_start<R: Read + Drop>(
    rt: &HostRuntime,
    task: StreamTask,
    reader: R,
    total: Option<u64>,
) -> Result<(), FaultKind> {
    if task.request.encrypts {
        return run_reader(rt, task, reader, total);
    }
    let mut reader = reader;
    let mut first = [0; 8];
    let count = fill(&mut reader, &mut first)?;
    let takes_salt = matches!(task.request.secret, Secret::Password(_, by) if by.is_salted);
    if first == PREFIX && !takes_salt {
        return Err(FaultKind::File(FileFault::Salted));
    }
    if first == PREFIX_IN_BASE64 {
        return Err(FaultKind::File(FileFault::SaltedText));
    }
    run_reader(rt, task, (&first[..count]).chain(reader), total)
}

// Whether the input can be sought to a part. Under a password the salt at its beginning is needed,
// and in CTR the counter block, if that is the first block of the input.
fn may_seek(request: &StreamRequest) -> bool {
    !matches!(
        (request.secret, request.mode, request.vector),
        (Secret::Password(_, _), _, _)
            | (
                _,
                CipherMode::Stream(StreamMode::Ctr),
                Some(Vector::FirstBlock)
            )
    )
}

// Reads a file. By a key it is sought to a part, and then its beginning is not looked at.
fn run_file(rt: &HostRuntime, task: StreamTask, path: &str) -> Result<(), FaultKind> {
    let mut input = files::open(rt, path)?;
    let skipped = if may_seek(task.request) {
        input.seek_to_last(task.skipped)
    } else {
        task.skipped
    };
    let count = task.request.part.and_then(|part| part.count);
    let total = input.total(skipped, count);
    if skipped == task.skipped {
        run_from_start(rt, task, input.file, total)
    } else {
        run_reader(rt, StreamTask { skipped, ..task }, input.file, total)
    }
}

// ---- Base64 and hexadecimal digits

/// Tells a fault of a file, and of what stands in it, and returns its status.
pub fn tell_in(
    rt: &HostRuntime,
    fault: FileFault,
    input: &str,
    detail: &str,
) -> Result<u8, FaultKind> {
    let about = format!(in rt.alloc(); "{input}: {detail}")?;
    let fault = Fault::about(FaultKind::File(fault), about.as_str());
    Ok(tell::<English, _>(fault, &mut rt.stderr()))
}

// Tells a fault of a line of a file, and returns its status.
fn tell_line(rt: &HostRuntime, fault: FileFault, input: &str, line: u64) -> Result<u8, FaultKind> {
    let line = format!(in rt.alloc(); "line {line}")?;
    tell_in(rt, fault, input, line.as_str())
}

/// Tells why an input is no text of hexadecimal digits, and returns the status.
pub fn tell_hex(rt: &HostRuntime, fault: HexFault, input: &str) -> Result<u8, FaultKind> {
    match fault {
        HexFault::Line(line) => tell_line(rt, FileFault::HexText, input, line),
        HexFault::Odd => Err(FaultKind::File(FileFault::HexLength)),
    }
}

// Does the work with the bytes that a reader gives as Base64. A text that is not Base64 is reported
// by its line.
fn run_encoded<R: Read + Drop>(
    rt: &HostRuntime,
    task: StreamTask,
    reader: R,
) -> Result<u8, FaultKind> {
    let input = task.request.input.name();
    let mut text = HexTextReader::new(reader);
    let mut reader = Base64Reader::new(&mut text, &STANDARD);
    let outcome = run_from_start(rt, task, &mut reader, None);
    let fault = reader.line_of_fault();
    if text.is_hexadecimal() {
        let _ = notices::tell(Notice::Hexadecimal, input, &mut rt.stderr());
    }
    match fault {
        Some(line) => tell_line(rt, FileFault::Base64, input, line),
        None => outcome.map(|()| 0),
    }
}

// Reads Base64, and does the work with its bytes.
fn run_base64(rt: &HostRuntime, task: StreamTask) -> Result<u8, FaultKind> {
    match task.request.input {
        Source::File(path) => run_encoded(rt, task, files::open(rt, path)?.file),
        _ => run_encoded(rt, task, rt.stdin()),
    }
}

// Does the work with the bytes whose digits a reader gives. A text with other characters is
// reported.
fn run_digits<R: Read + Drop>(
    rt: &HostRuntime,
    task: StreamTask,
    reader: R,
) -> Result<u8, FaultKind> {
    let mut reader = HexReader::new(reader);
    let outcome = run_from_start(rt, task, &mut reader, None);
    match reader.fault() {
        Some(fault) => tell_hex(rt, fault, task.request.input.name()),
        None => outcome.map(|()| 0),
    }
}

// Reads hexadecimal digits, and does the work with their bytes.
fn run_hexadecimal(rt: &HostRuntime, task: StreamTask) -> Result<u8, FaultKind> {
    match task.request.input {
        Source::File(path) => run_digits(rt, task, files::open(rt, path)?.file),
        _ => run_digits(rt, task, rt.stdin()),
    }
}

// ---- the whole

// The key, unless the weak key test refuses it, or the password, unless it is empty.
fn secret_in<'a>(rt: &HostRuntime, request: &StreamRequest<'a>) -> Result<Vec<u8>, Fault<'a>> {
    match request.secret {
        Secret::Key(source) => {
            let key = key_in(rt, source, Some(request.cipher.key_size()))?;
            accept_key(request, key.as_slice(), source.name(), &mut rt.stderr()).map_err(
                |kind| Fault::about(kind, source.name()),
            )?;
            Ok(key)
        }
        Secret::Password(source, _) => {
            let password = password_in(rt, source)?;
            check_password(request.encrypts, password.as_slice()).map_err(|kind| Fault::about(
                kind,
                password_name(source),
            ))?;
            Ok(password)
        }
    }
}

// Eight random bytes, if a vector or a salt is to be random.
fn random_for(rt: &HostRuntime, request: &StreamRequest) -> Result<[u8; 8], FaultKind> {
    match (request.secret, request.vector) {
        (Secret::Password(_, _), _) if request.encrypts => system_random(rt),
        (_, Some(Vector::Random)) => system_random(rt),
        _ => Ok([0; 8]),
    }
}

// A fault of a stream, with what it is about. Wrong padding is mostly reported as a wrong password.
fn fault_of<'a>(kind: FaultKind, request: &StreamRequest<'a>) -> Fault<'a> {
    match (kind, request.secret) {
        (FaultKind::WeakKey, Secret::Password(source, _)) => Fault::about(
            kind,
            password_name(source),
        ),
        (FaultKind::Padding, Secret::Password(_, _)) => {
            Fault::about(FaultKind::File(FileFault::Unpadded), request.input.name())
        }
        (FaultKind::Source(_), _) => Fault::about(kind, RANDOM_SOURCE),
        (FaultKind::Write(_), _) => Fault::about(kind, output_name(request.output)),
        _ => Fault::about(kind, request.input.name()),
    }
}

// Encrypts or decrypts by a secret that is taken. Returns 0, or the status of a fault that was
// reported.
fn run_taken(rt: &HostRuntime, request: &StreamRequest, secret: &[u8]) -> Result<u8, FaultKind> {
    let task = StreamTask {
        request,
        secret,
        random: random_for(rt, request)?,
        skipped: blocks_before(request),
    };
    match (request.coding, request.input) {
        (Coding::Base64, _) => return run_base64(rt, task),
        (Coding::Hexadecimal, _) => return run_hexadecimal(rt, task),
        (Coding::Bytes, Source::File(path)) => run_file(rt, task, path)?,
        (Coding::Bytes, _) => run_from_start(rt, task, rt.stdin(), None)?,
    }
    Ok(0)
}

/// Encrypts or decrypts, and writes where the request says. Nothing is read or written of a stream
/// whose key or password is refused. Returns 0, or the status of a fault that was reported.
pub fn stream_status<'a>(rt: &HostRuntime, request: &StreamRequest<'a>) -> Result<u8, Fault<'a>> {
    refuse_terminal(rt, request.output)?;
    let secret = secret_in(rt, request)?;
    let status = run_taken(rt, request, secret.as_slice()).map_err(|kind| fault_of(kind, request))?;
    if status == 0 {
        // What was written to standard output is flushed.
        send(&mut rt.stdout(), b"").map_err(|kind| Fault::about(kind, "standard output"))?;
    }
    Ok(status)
}
