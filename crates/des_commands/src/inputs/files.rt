//! Input files: how they are opened, the places where they are read from, and random bytes.

ghost use Rattle.std.specs.Prelude.{◌≡◌, ◌≤◌, ◌⊎◌, ◌↔◌, IfOk, IfErr};
ghost use Rattle.std.specs.IoError.{error_kind};
ghost use Rattle.std.specs.Io.KnownBytes.{Consumes};
ghost use Rattle.des_commands.specs.Sources.{of_source as fault_of_source, FailsToRead, FailsAsSource};

use crate::descriptors::{Followed, descriptor_state_of, follow};
use des_io::StreamError;
use des_io::pieces::fill;
use des_lines::fault::{FaultKind, Reason};
use std::fs::File;
use std::io::{self, ErrorKind, Read, Seek, SeekFrom};

/// The system's source of random bytes.
pub const RANDOM_SOURCE: &str = "/dev/urandom";

/// A file that is open to be read.
#[derive(Drop)]
pub struct Input {
    pub file: File,
    // The byte that is read first.
    place: u64,
    // The file's bytes, if it is a regular one.
    length: Option<u64>,
}

/// The fault of an error that says why an input can't be read.
pub fn read_fault(error: io::Error) -> FaultKind
    ensures fault { FailsToRead result }
    ensures memory { (result ≡ FaultKind.Memory) ↔ (error_kind error ≡ ErrorKind.OutOfMemory) }
{
    match error.kind() {
        ErrorKind::OutOfMemory => FaultKind::Memory,
        _ => FaultKind::Read(Reason::of(&error)),
    }
}

/// Opens a file to read. The system opens the file of a descriptor, as `/dev/fd/3`, anew and at its
/// beginning: it is read from where the descriptor stands. Standard input under other names than
/// its own is refused: it may be read beside this. The fault is `Read` or `Memory`.
pub fn open(rt: &HostRuntime, path: &str) -> Result<Input, FaultKind>
    ensures { IfErr result FailsToRead }
{
    let place = match follow(rt, path) {
        Ok(Followed::Descriptor(0) | Followed::OtherDescriptor) => {
            return Err(FaultKind::Read(Reason::Descriptor));
        }
        Ok(Followed::Descriptor(number)) => descriptor_state_of(rt, number)
            .map_err(read_fault)?
            .place,
        Ok(Followed::Path { .. }) => 0,
        // The system follows a link to a name that is no text.
        Err(error) if error.kind() == ErrorKind::InvalidFilename => 0,
        Err(error) => return Err(read_fault(error)),
    };
    open_at(rt, path, place).map_err(read_fault)
}

// Opens a file to read from a place on.
fn open_at(rt: &HostRuntime, path: &str, place: u64) -> io::Result<Input> {
    let mut file = File::open(rt, path)?;
    let metadata = file.metadata()?;
    if metadata.is_dir() {
        return Err(io::Error::from(ErrorKind::IsADirectory));
    }
    if place > 0 {
        file.seek(SeekFrom::Start(place))?;
    }
    Ok(Input {
        file,
        place,
        length: metadata.is_file().then_some(metadata.len()),
    })
}

impl Input {
    /// Seeks to the last of the first `before` blocks, which CBC needs as its vector. Returns the
    /// number of these blocks that are still to be read: one, none if `before` is 0, and all if the
    /// file can't seek.
    pub fn seek_to_last(&mut self, before: u64) -> u64 {
        if before == 0 {
            return 0;
        }
        let place = self.place.saturating_add((before - 1).saturating_mul(8));
        if self.file.seek(SeekFrom::Start(place)).is_err() {
            return before;
        }
        self.place = place;
        1
    }

    /// The number of bytes to read, if the file tells: up to its end, or those of `blocks` blocks
    /// and of the blocks before them.
    pub fn total(&self, skipped: u64, blocks: Option<u64>) -> Option<u64> {
        self.length.map(|length| bytes_to_read(length, self.place, skipped, blocks))
    }
}

/// The number of bytes to read from a place in a file of `length` bytes: up to its end, or at most
/// those of `skipped` blocks and of the `blocks` blocks after them.
pub fn bytes_to_read(length: u64, place: u64, skipped: u64, blocks: Option<u64>) -> u64 {
    let rest = length.saturating_sub(place);
    match blocks {
        Some(blocks) => rest.min(skipped.saturating_add(blocks).saturating_mul(8)),
        None => rest,
    }
}

// The fault of the source of random bytes.
fn of_source(kind: FaultKind) -> FaultKind
    ensures { result ≡ fault_of_source kind }
{
    match kind {
        FaultKind::Read(reason) => FaultKind::Source(reason),
        kind => kind,
    }
}

/// The fault of a reader that failed.
pub fn reader_fault(error: StreamError) -> FaultKind
    ensures { (reason : Reason) × (result ≡ FaultKind.Read reason) }
{
    match error {
        StreamError::Read(error) => FaultKind::Read(Reason::of(&error)),
        _ => FaultKind::Read(Reason::Other),
    }
}

/// The next bytes of a source of random bytes. The fault is `Source`.
pub fn random_bytes<R: Read, const N: usize>(source: &mut R) -> Result<[u8; N], FaultKind>
    requires { N ≤ 1000 }
    ensures bytes { IfOk result (λ bytes.
        Consumes (R.remaining source.old) (R.remaining source.new) bytes) }
    ensures fault { IfErr result (λ kind. (reason : Reason) × (kind ≡ FaultKind.Source reason)) }
{
    let mut bytes = [0u8; N];
    match fill(source, &mut bytes) {
        Ok(n) if n == N => Ok(bytes),
        Ok(_) => Err(FaultKind::Source(Reason::Other)),
        Err(error) => Err(of_source(reader_fault(error))),
    }
}

/// Random bytes of the system. The fault is `Source` or `Memory`.
pub fn system_random<const N: usize>(rt: &HostRuntime) -> Result<[u8; N], FaultKind>
    requires { N ≤ 1000 }
    ensures { IfErr result FailsAsSource }
{
    let mut source = File::open(rt, RANDOM_SOURCE).map_err(|error| of_source(read_fault(error)))?;
    random_bytes(&mut source)
}
