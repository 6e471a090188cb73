//! The run of `decrypt-lines`: the secret, the input, and the output.

ghost use Rattle.std.specs.Prelude.{◌≡◌, IfOk, IfErr, OnErr};
ghost use Rattle.hex.specs.Hex.{decode_of};
ghost use Rattle.des_commands.specs.LineJobs.{opening_of, vector_digits as vector_digits_of, FailsAsDigits, IsJobOfLines};
ghost use Rattle.des_commands.specs.LineRuns.{streams_of, FailsToRun, IsRun, StopsAfter};

use crate::inputs::files::{self, RANDOM_SOURCE};
use crate::inputs::secrets::{line_in, password_in};
use crate::inputs::sources::bytes_of;
use crate::lines::openers::{JasyptPassword, KeyString, PgcryptoKey};
use crate::lines::{self, FIRST_FAULT, LinesJob};
use crate::outputs::notices::{self, Notice};
use crate::outputs::targets::{self, Access, PrivateFile, Target, output_name};
use crate::streams::progress_reader::ProgressReader;
use des_columns::key_file::KeyFile;
use des_lines::fault::{Fault, FaultKind, Misuse};
use des_lines::report::send;
use des_lines::source::Source;
use des_requests::lines::{LineSecret, LinesRequest, ValueFormat};
use hex::FromHexError;
use std::alloc::Global;
use std::io::{BufRead, BufReader, Read, Write};

// The bytes of the input that are read at a time.
const BYTES_AT_A_TIME: usize = 65536;

// The bytes that a server's file of keys has at most: six times those of ten lines as long as it
// reads.
const MAX_KEY_FILE: usize = 65536;

// A request, with what was read for it.
#[derive(Clone, Copy)]
struct LinesTask<'a> {
    request: &'a LinesRequest<'a>,
    // The password, the key string, the key, or what the server's file of keys has.
    secret: &'a [u8],
    // Of pgcrypto.
    vector: &'a [u8],
}

// What is done with the lines of a request.
fn job_of<'a>(request: &LinesRequest<'a>) -> LinesJob<'a>
    ensures { IsJobOfLines request.now result }
{
    LinesJob {
        coding: request.coding,
        writes_digits: request.writes_digits,
        keeps_going: request.keeps_going,
        name: request.input.name(),
    }
}

// Answers the lines of a reader by the rule of a format, and returns the status.
fn answer_lines<R: BufRead, W: Write, E: Write>(
    alloc: Global,
    job: &LinesJob,
    format: ValueFormat,
    from: LineSecret,
    secret: &[u8],
    vector: &[u8],
    reader: &mut R,
    writer: &mut W,
    err: &mut E,
) -> Result<u8, FaultKind>
    ensures run { IfOk result (λ status.
        IsRun (opening_of format.entry from.entry secret.now vector.now) job.now status
        (streams_of (R.remaining reader.old) (W.contents writer.old) (E.contents err.old))
        (streams_of (R.remaining reader.new) (W.contents writer.new) (E.contents err.new))) }
    ensures fault { IfErr result FailsToRun }
    ensures stopped { OnErr result (StopsAfter (opening_of format.entry from.entry secret.now vector.now) job.now 1
        (streams_of (R.remaining reader.old) (W.contents writer.old) (E.contents err.old))
        (streams_of (R.remaining reader.new) (W.contents writer.new) (E.contents err.new))) }
{
    match (format, from) {
        (ValueFormat::Mysql, LineSecret::Password(_)) => {
            let opener = KeyString::new(secret);
            lines::run(alloc, job, &opener, reader, writer, err)
        }
        (ValueFormat::Mysql, LineSecret::Key(_)) => {
            let opener = KeyFile::read(secret);
            lines::run(alloc, job, &opener, reader, writer, err)
        }
        (ValueFormat::Jasypt(by, iterations), _) => {
            let opener = JasyptPassword::new(by, iterations, secret);
            lines::run(alloc, job, &opener, reader, writer, err)
        }
        (ValueFormat::Pgcrypto(scheme, _), _) => {
            let opener = PgcryptoKey {
                scheme,
                key: secret,
                vector,
            };
            lines::run(alloc, job, &opener, reader, writer, err)
        }
    }
}

impl<'a> LinesTask<'a> {
    // Answers the lines of a reader, and returns the status.
    fn run<R: Read + Drop, W: Write>(
        self,
        rt: &HostRuntime,
        reader: R,
        writer: &mut W,
    ) -> Result<u8, FaultKind> {
        let alloc = rt.alloc();
        let mut reader = BufReader::with_capacity(alloc, BYTES_AT_A_TIME, reader).map_err(
            |_| FaultKind::Memory,
        )?;
        answer_lines(
            alloc,
            &job_of(self.request),
            self.request.format,
            self.request.secret,
            self.secret,
            self.vector,
            &mut reader,
            writer,
            &mut rt.stderr(),
        )
    }
}

// ---- the output

// Replaces the file of an output, unless the run ended at a fault, and tells who can't read it any
// more.
fn end_file(
    rt: &HostRuntime,
    file: PrivateFile,
    about: &str,
    outcome: Result<u8, FaultKind>,
) -> Result<u8, FaultKind> {
    let narrows = file.narrows;
    if let Ok(FIRST_FAULT) = outcome {
        // The file is removed. The fault was reported.
        let _ = file.end(rt, Err(FaultKind::Padding));
        return outcome;
    }
    let status = match outcome {
        Ok(status) => {
            file.end(rt, Ok(()))?;
            status
        }
        Err(kind) => return file.end(rt, Err(kind)).map(|()| FIRST_FAULT),
    };
    if narrows {
        let _ = notices::tell(Notice::Permissions, about, &mut rt.stderr());
    }
    Ok(status)
}

// Writes where the request says.
fn run_to_output<R: Read + Drop>(
    rt: &HostRuntime,
    task: LinesTask,
    reader: R,
) -> Result<u8, FaultKind> {
    let output = task.request.output;
    let secret = task.request.secret.source();
    match targets::open(rt, output, Access::OfFolder, secret)? {
        Target::StandardOutput => {
            targets::refuse_input(rt, task.request.input)?;
            let status = task.run(rt, reader, &mut rt.stdout())?;
            send(&mut rt.stdout(), b"")?;
            Ok(status)
        }
        Target::AsItIs(mut file) => task.run(rt, reader, &mut file),
        Target::Replaced(mut file) => {
            let outcome = task.run(rt, reader, &mut file.file);
            end_file(rt, file, output_name(output), outcome)
        }
    }
}

// ---- the input

fn run_reader<R: Read + Drop>(
    rt: &HostRuntime,
    task: LinesTask,
    reader: R,
    total: Option<u64>,
) -> Result<u8, FaultKind> {
    let shows_progress = task.request.shows_progress;
    let mut reader = ProgressReader::of_progress(rt, reader, shows_progress, total);
    let outcome = run_to_output(rt, task, &mut reader);
    reader.end();
    outcome
}

fn run_input(rt: &HostRuntime, task: LinesTask) -> Result<u8, FaultKind> {
    match task.request.input {
        Source::File(path) => {
            let input = files::open(rt, path)?;
            let total = input.total(0, None);
            run_reader(rt, task, input.file, total)
        }
        _ => run_reader(rt, task, rt.stdin(), None),
    }
}

// ---- the secret

// The bytes that hexadecimal digits write. The fault is `KeyText` if a text is none, or `Memory`.
fn bytes_of_digits(alloc: Global, digits: &[u8]) -> Result<Vec<u8>, FaultKind>
    ensures bytes { IfOk result (λ bytes. decode_of digits.now ≡ Ok bytes.items) }
    ensures fault { IfErr result (FailsAsDigits digits.now) }
{
    match hex::decode(alloc, digits) {
        Ok(bytes) => Ok(bytes),
        Err(FromHexError::OutOfMemory) => Err(FaultKind::Memory),
        Err(_) => Err(FaultKind::KeyText),
    }
}

// The secret of a request.
fn secret_in<'a>(rt: &HostRuntime, request: &LinesRequest<'a>) -> Result<Vec<u8>, Fault<'a>> {
    match (request.secret, request.format) {
        (LineSecret::Password(source), _) => password_in(rt, source),
        (LineSecret::Key(source), ValueFormat::Mysql) => bytes_of(rt, source, MAX_KEY_FILE).map_err(
            |kind| Fault::about(kind, source.name()),
        ),
        (LineSecret::Key(source), _) => {
            let digits = line_in(rt, source)?;
            let name = source.name();
            bytes_of_digits(rt.alloc(), digits.as_slice()).map_err(|kind| Fault::about(kind, name))
        }
    }
}

// The digits of a format's vector: none if it takes no vector.
fn vector_digits<'a>(format: ValueFormat<'a>) -> &'a str
    ensures { result.now ≡ vector_digits_of format.entry }
{
    match format {
        ValueFormat::Pgcrypto(_, digits) => digits,
        _ => "",
    }
}

// A fault of a vector's digits.
fn vector_fault<'a>(kind: FaultKind) -> Fault<'a> {
    match kind {
        FaultKind::KeyText => Fault::about(FaultKind::Usage(Misuse::ArgumentValue), "--iv"),
        kind => Fault::about(kind, ""),
    }
}

// ---- the whole

/// Decrypts the values of lines, and writes their texts where the request says. Returns 0, or the
/// status of faults that were reported.
pub fn lines_status<'a>(rt: &HostRuntime, request: &LinesRequest<'a>) -> Result<u8, Fault<'a>> {
    let secret = secret_in(rt, request)?;
    let digits = vector_digits(request.format).as_bytes();
    let vector = bytes_of_digits(rt.alloc(), digits).map_err(|kind| vector_fault(kind))?;
    let task = LinesTask {
        request: &*request,
        secret: secret.as_slice(),
        vector: vector.as_slice(),
    };
    run_input(rt, task).map_err(|kind| match kind {
        FaultKind::Write(_) => Fault::about(kind, output_name(request.output)),
        FaultKind::Source(_) => Fault::about(kind, RANDOM_SOURCE),
        _ => Fault::about(kind, request.input.name()),
    })
}
