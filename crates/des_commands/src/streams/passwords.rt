//! Streams under passwords, as `openssl enc` writes them: the key and the vector of a password and
//! a salt, and the salt that stands before what is encrypted.

ghost use Rattle.std.specs.Prelude.{◌≡◌, ◌++◌, codes, IfOk, IfErr};
ghost use Rattle.std.specs.Io.KnownBytes.{Consumes};
ghost use Rattle.des_io.specs.Streams.{passage_of};
ghost use Rattle.des_lines.specs.Keys.{IsKeySize};
ghost use Rattle.des_requests.specs.StreamRequests.{key_size_of};
ghost use Rattle.des_commands.specs.PasswordStreams.{password_fault, salt_bytes};
ghost use Rattle.des_commands.specs.PasswordStreams.{IsToHaveSalt, ReadsSalt, FailsToReadSalt};
ghost use Rattle.des_commands.specs.PasswordStreams.{IsDoneByPassword, StopsByPassword, TellsOfKey};
ghost use Rattle.des_lines.specs.Faults.{FailsOnlyBy};

use crate::outputs::notices::accept_key;
use crate::streams;
use des_io::pieces::fill;
use des_lines::fault::{FaultKind, FileFault, Misuse};
use des_passwords::salted::PREFIX;
use des_passwords::{SaltedError, read_salted};
use des_requests::streams::{Cipher, Password, StreamRequest, job_of};
use std::alloc::Global;
use std::io::{Read, Write};

/// A request by a password, and what else its stream takes.
#[derive(Clone, Copy)]
pub struct PasswordJob<'a> {
    pub request: &'a StreamRequest<'a>,
    pub by: Password,
    pub password: &'a [u8],
    /// The salt of what is encrypted.
    pub salt: [u8; 8],
    /// The blocks of what is decrypted that are read and passed over.
    pub skipped: u64,
    /// What faults of the password are about.
    pub name: &'a str,
}

/// Refuses to encrypt under an empty password. The fault is `EmptyPassword`.
pub fn check_password(encrypts: bool, password: &[u8]) -> Result<(), FaultKind>
    ensures { FailsOnlyBy (password_fault encrypts password.now) result }
{
    if encrypts && password.is_empty() {
        Err(FaultKind::EmptyPassword)
    } else {
        Ok(())
    }
}

// ---- the salt

// Reads `Salted__` and the salt.
fn read_salt<R: Read>(reader: &mut R) -> Result<[u8; 8], FaultKind>
    ensures salt { IfOk result (λ salt.
        Consumes (R.remaining reader.old) (R.remaining reader.new) (codes "Salted__" ++ salt)) }
    ensures fault { IfErr result (FailsToReadSalt (R.remaining reader.old)
        (R.remaining reader.new)) }
{
    let mut bytes = [0; 16];
    let count = fill(reader, &mut bytes)?;
    match read_salted(&bytes[..count]) {
        Ok(read) => Ok(*read.salt),
        Err(SaltedError::NotSalted) => Err(FaultKind::File(FileFault::NotSalted)),
        Err(SaltedError::SaltCut) => Err(FaultKind::File(FileFault::SaltCut)),
    }
}

// The salt: that of what is encrypted, or what a file to be decrypted begins with, if it has one.
fn salt_of<R: Read>(job: &PasswordJob, reader: &mut R) -> Result<Option<[u8; 8]>, FaultKind>
    ensures salt { IfOk result (λ salt. ReadsSalt job.now salt (R.remaining reader.old)
        (R.remaining reader.new)) }
    ensures fault { IfErr result (λ kind. IsToHaveSalt job.now
        × FailsToReadSalt (R.remaining reader.old) (R.remaining reader.new) kind) }
{
    if job.request.encrypts {
        Ok(Some(job.salt))
    } else if job.by.is_salted {
        Ok(Some(read_salt(reader)?))
    } else {
        Ok(None)
    }
}

// The bytes of a salt; none if there is none.
fn bytes_of(salt: &Option<[u8; 8]>) -> &[u8]
    ensures { result.now ≡ salt_bytes salt.now }
{
    match salt {
        Some(salt) => salt.as_slice(),
        None => &[],
    }
}

// ---- the stream

// Encrypts or decrypts by a key of N bytes.
fn run_by_key<const N: usize, R: Read, W: Write, E: Write>(
    alloc: Global,
    job: &PasswordJob,
    reader: &mut R,
    writer: &mut W,
    err: &mut E,
) -> Result<(), FaultKind>
    requires one { IsKeySize N }
    requires size { N ≡ key_size_of job.now.request.now.cipher }
    ensures done { IfOk result (λ _. IsDoneByPassword job.now (passage_of (R.remaining reader.old)
        (R.remaining reader.new) (W.contents writer.old) (W.contents writer.new))) }
    ensures fault { IfErr result (λ kind. StopsByPassword kind job.now (passage_of (R.remaining reader.old)
        (R.remaining reader.new) (W.contents writer.old) (W.contents writer.new))) }
    ensures told { TellsOfKey job.now (E.contents err.old) (E.contents err.new) }
{
    let request = job.request;
    let salt = salt_of(job, reader)?;
    let derivation = job.by.derivation;
    let Ok(secret) = derivation.key_and_vector::<N>(job.password, bytes_of(&salt)) else {
        return Err(FaultKind::Usage(Misuse::Derivation));
    };
    let heading = [PREFIX, job.salt];
    let heading = heading.as_flattened();
    let stream = job_of(request, &secret.key, secret.vector, heading, job.skipped);
    accept_key(request, stream.key, job.name, err)?;
    streams::run(alloc, &stream, reader, writer)
}

/// Encrypts or decrypts what the reader gives by the key and the vector of a password and a salt,
/// and writes it. To encrypt, `Salted__` and the salt are written first; to decrypt, they are read
/// first, if the file has them. The weak key test comes before anything is written; what it tells
/// goes to `err`, if no password stands. The writer is not flushed.
///
/// The fault is `NotSalted`, `SaltCut` or `Read` if no salt is read, `Usage` if there is no
/// iteration, or `WeakKey`: nothing is then written. Otherwise it is one of `streams::run`, and a
/// prefix is written.
pub fn run_by_password<R: Read, W: Write, E: Write>(
    alloc: Global,
    job: &PasswordJob,
    reader: &mut R,
    writer: &mut W,
    err: &mut E,
) -> Result<(), FaultKind>
    ensures done { IfOk result (λ _. IsDoneByPassword job.now (passage_of (R.remaining reader.old)
        (R.remaining reader.new) (W.contents writer.old) (W.contents writer.new))) }
    ensures fault { IfErr result (λ kind. StopsByPassword kind job.now (passage_of (R.remaining reader.old)
        (R.remaining reader.new) (W.contents writer.old) (W.contents writer.new))) }
    ensures told { TellsOfKey job.now (E.contents err.old) (E.contents err.new) }
{
    match job.request.cipher {
        Cipher::Des => run_by_key::<8, R, W, E>(alloc, job, reader, writer, err),
        Cipher::TdesEde2 => run_by_key::<16, R, W, E>(alloc, job, reader, writer, err),
        Cipher::TdesEde3 => run_by_key::<24, R, W, E>(alloc, job, reader, writer, err),
    }
}
