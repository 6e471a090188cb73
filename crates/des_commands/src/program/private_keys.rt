//! The run of `decrypt-pem`: the password, the private key, and what is written.

use super::streams::tell_in;
use crate::inputs::secrets::password_in;
use crate::inputs::sources::bytes_of;
use crate::outputs::targets::{self, Access, Target, output_name, refuse_terminal};
use crate::private_keys::{decrypted_key, is_der, object_identifier, pem_text};
use des_lines::fault::{Fault, FaultKind, FileFault};
use des_lines::key_block_lines::shown_name;
use des_lines::report::send;
use des_passwords::{
    KeyAndVector, KeyFileError, Label, PemError, read_encrypted_key_of_many, read_pem,
};
use des_requests::command::{KeyForm, PrivateKeyRequest};

// The bytes that a file with a private key has at most.
const MAX_FILE: usize = 65536;

/// A request with what was read.
#[derive(Clone, Copy)]
struct PrivateKeyJob<'a> {
    request: &'a PrivateKeyRequest<'a>,
    password: &'a [u8],
    // What is written is PEM.
    is_pem: bool,
}

// ---- faults

fn tell_pem(rt: &HostRuntime, error: PemError, input: &str) -> Result<u8, FaultKind> {
    let (fault, detail) = match error {
        PemError::Base64(line) => (FileFault::Base64, format!(in rt.alloc(); "line {line}")?),
        PemError::Cipher(name) => (FileFault::Cipher, shown_name(rt.alloc(), name)?),
        PemError::OutOfMemory => return Err(FaultKind::Memory),
        PemError::Begin => return Err(FaultKind::File(FileFault::Begin)),
        PemError::End => return Err(FaultKind::File(FileFault::End)),
        PemError::NotEncrypted => return Err(FaultKind::File(FileFault::NotEncrypted)),
        PemError::NoDekInfo => return Err(FaultKind::File(FileFault::NoDekInfo)),
        PemError::Vector => return Err(FaultKind::File(FileFault::DekVector)),
        PemError::EmptyLine => return Err(FaultKind::File(FileFault::EmptyLine)),
    };
    tell_in(rt, fault, input, detail.as_str())
}

fn tell_der(rt: &HostRuntime, error: KeyFileError, input: &str) -> Result<u8, FaultKind> {
    let (fault, object) = match error {
        KeyFileError::Structure => return Err(FaultKind::File(FileFault::Structure)),
        KeyFileError::Iterations => return Err(FaultKind::File(FileFault::Iterations)),
        KeyFileError::KeyLength => return Err(FaultKind::File(FileFault::KeySize)),
        KeyFileError::Algorithm(object) => (FileFault::Algorithm, object),
        KeyFileError::KeyDerivation(object) => (FileFault::KeyDerivation, object),
        KeyFileError::Prf(object) => (FileFault::Prf, object),
        KeyFileError::Cipher(object) => (FileFault::Cipher, object),
    };
    let name = object_identifier(rt.alloc(), object)?;
    tell_in(rt, fault, input, name.as_str())
}

// ---- what is written

// Writes a key where the request says. A file is replaced when all of it is written, and is then
// its owner's alone. The file of the password is not written.
fn write_bytes(
    rt: &HostRuntime,
    request: &PrivateKeyRequest,
    bytes: &[u8],
) -> Result<(), FaultKind> {
    match targets::open(rt, request.output, Access::Owner, request.password)? {
        Target::StandardOutput => send(&mut rt.stdout(), bytes),
        Target::AsItIs(mut file) => send(&mut file, bytes),
        Target::Replaced(mut file) => {
            let outcome = send(&mut file.file, bytes);
            file.end(rt, outcome)
        }
    }
}

// Decrypts a key, and writes it.
fn write_key(
    rt: &HostRuntime,
    job: &PrivateKeyJob,
    label: Label,
    both: &KeyAndVector<24>,
    encrypted: &[u8],
) -> Result<u8, FaultKind> {
    let mut text = decrypted_key(rt.alloc(), both, encrypted)?;
    if job.is_pem {
        text = pem_text(rt.alloc(), label, text.as_slice())?;
    }
    write_bytes(rt, job.request, text.as_slice())?;
    Ok(0)
}

// Decrypts a key whose DER says how.
fn run_der(rt: &HostRuntime, job: &PrivateKeyJob, bytes: &[u8]) -> Result<u8, FaultKind> {
    match read_encrypted_key_of_many(bytes, job.request.most_iterations) {
        Ok(read) => match read.parameters.key_and_vector(job.password) {
            Ok(both) => write_key(rt, job, Label::Encrypted, &both, read.encrypted),
            Err(_) => Err(FaultKind::File(FileFault::Iterations)),
        },
        Err(error) => tell_der(rt, error, job.request.input.name()),
    }
}

fn run_pem(rt: &HostRuntime, job: &PrivateKeyJob, text: &[u8]) -> Result<u8, FaultKind> {
    match read_pem(rt.alloc(), text) {
        Ok(key) => match key.dek_info {
            Some(info) => {
                let both = info.key_and_vector(job.password);
                write_key(rt, job, key.label, &both, key.bytes.as_slice())
            }
            None => run_der(rt, job, key.bytes.as_slice()),
        },
        Err(error) => tell_pem(rt, error, job.request.input.name()),
    }
}

fn run_text(
    rt: &HostRuntime,
    request: &PrivateKeyRequest,
    password: &[u8],
    text: &[u8],
) -> Result<u8, FaultKind> {
    let is_der = is_der(text);
    let job = PrivateKeyJob {
        request,
        password,
        is_pem: match request.form {
            KeyForm::AsRead => !is_der,
            KeyForm::Pem => true,
            KeyForm::Der => false,
        },
    };
    if is_der {
        run_der(rt, &job, text)
    } else {
        run_pem(rt, &job, text)
    }
}

/// Decrypts the private key that a request names, and writes it. Returns 0, or the status of a
/// fault that was reported.
pub fn private_key_status<'a>(
    rt: &HostRuntime,
    request: &PrivateKeyRequest<'a>,
) -> Result<u8, Fault<'a>> {
    refuse_terminal(rt, request.output)?;
    let password = password_in(rt, request.password)?;
    bytes_of(rt, request.input, MAX_FILE)
        .and_then(|text| run_text(rt, request, password.as_slice(), text.as_slice()))
        .map_err(|kind| match kind {
            FaultKind::Write(_) => Fault::about(kind, output_name(request.output)),
            _ => Fault::about(kind, request.input.name()),
        })
}
