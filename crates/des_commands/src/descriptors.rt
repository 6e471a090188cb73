//! Descriptors of the process under the names that the system gives them.

ghost use Rattle.std.specs.Prelude.{◌≡◌, ◌≢◌, Some, None, Ok, Err, IfOk, IfErr};
ghost use Rattle.std.specs.List.{list_any};
ghost use Rattle.std.specs.IoError.{error_kind};
ghost use Rattle.des_commands.specs.Descriptors.{is_shared as is_shared_by};

use std::fs::{self, Metadata, OpenOptions};
use std::io::{self, ErrorKind};
use std::os::fd::{AsRawFd, IntoRawFd};
use std::os::unix::fs::{MetadataExt, PermissionsExt};
use std::path::Path;

/// The device that occupies a standard descriptor which is closed.
pub const NULL_DEVICE: &str = "/dev/null";

// The links in it lead to the files of the descriptors.
const DESCRIPTORS: &str = "/proc/self/fd";

// The symbolic links that are followed, as many as Linux follows.
const MAX_LINKS: u32 = 40;

// The bits of the mode of a folder where everyone may write, and remove only their own files.
const SHARED: u32 = 0o1002;

// The bits of the system's flags for what a descriptor may do, and their values if it may read
// alone or write alone.
const ACCESS: u32 = 0o3;

const READ_ONLY: u32 = 0;

const WRITE_ONLY: u32 = 1;

/// The state of a descriptor: its place in its file, and what it allows.
#[derive(Clone, Copy)]
pub struct DescriptorState {
    /// The byte that is read next: 0 in a pipe.
    pub place: u64,
    /// It may be written to.
    pub writes: bool,
}

/// What a path leads to, once the symbolic links at its end are followed.
#[derive(Drop)]
pub enum Followed {
    /// A descriptor of this process, under a name of `descriptor_of`.
    Descriptor(u64),
    /// A descriptor under another name, or one of another process.
    OtherDescriptor,
    /// A path that is no link, and the modes of the folders with the links to it.
    Path { name: String, folders: Vec<u32> },
}

/// Occupies each of the descriptors 0 to 2 that is closed, so that no file opened later becomes a
/// standard stream. The null device is opened for the opposite direction, so that reading and
/// writing still fail. The error is that the system has no null device.
pub fn occupy_closed(rt: &HostRuntime) -> io::Result<()> {
    for _ in 0..3 {
        // A pipe needs no file. Its reader has the lowest closed descriptor.
        let (reader, writer) = io::pipe(rt)?;
        let number = reader.as_raw_fd();
        drop(reader);
        drop(writer);
        if number > 2 {
            return Ok(());
        }
        let device = OpenOptions::new()
            .read(number != 0)
            .write(number == 0)
            .open(rt, NULL_DEVICE)?;
        device.into_raw_fd();
    }
    Ok(())
}

// ---- names

/// The descriptor that a path names, if it names one of this process: by its number as the system
/// writes it, or as a standard one.
pub fn descriptor_of(path: &str) -> Option<u64> {
    let digits = match path {
        "/dev/stdin" => "0",
        "/dev/stdout" => "1",
        "/dev/stderr" => "2",
        _ => path
            .strip_prefix("/dev/fd/")
            .or_else(|| path.strip_prefix("/proc/self/fd/"))?,
    };
    if digits.starts_with("+") || digits.starts_with("0") && digits != "0" {
        return None;
    }
    digits.parse().ok()
}

// What a link leads to, seen from the link's folder.
fn linked(rt: &HostRuntime, link: &str) -> io::Result<String> {
    let target = fs::read_link(rt, link)?;
    let folder = Path::new(link).parent().unwrap_or(Path::new(""));
    Ok(folder.join(rt.alloc(), target.as_str())?.into_string())
}

/// The folder of a path.
pub fn folder_of(path: &str) -> &str {
    match Path::new(path).parent() {
        Some(folder) if !folder.as_os_str().is_empty() => folder.as_str(),
        _ => ".",
    }
}

/// What is known of a file, or that there is none. The system may tell neither: that is an error,
/// and never the answer that there is none.
pub fn if_there(known: io::Result<Metadata>) -> io::Result<Option<Metadata>>
    ensures there { IfOk known (λ metadata. result ≡ Ok (Some metadata)) }
    ensures none { IfErr known (λ error. error_kind error ≡ ErrorKind.NotFound → result ≡ Ok None) }
    ensures untold { IfErr known (λ error. error_kind error ≢ ErrorKind.NotFound → result ≡ Err error) }
{
    match known {
        Ok(metadata) => Ok(Some(metadata)),
        Err(error) if error.kind() == ErrorKind::NotFound => Ok(None),
        Err(error) => Err(error),
    }
}

// The mode of the folder of a path.
fn folder_mode(rt: &HostRuntime, path: &str) -> io::Result<u32> {
    Ok(fs::metadata(rt, folder_of(path))?.permissions().mode())
}

// Whether everyone may write in a folder of a mode, and remove only their own files, as in `/tmp`.
fn is_shared(mode: u32) -> bool
    ensures { result ≡ is_shared_by mode }
{
    mode & SHARED == SHARED
}

/// Whether one of some folders, by their modes, is one where everyone may write, as `/tmp`.
pub fn has_shared(modes: &[u32]) -> bool
    ensures { result ≡ list_any is_shared_by modes.now }
{
    modes.iter().any(|mode| is_shared(*mode))
}

// Whether a link is one of the system to a descriptor's file: it is in the system's folder of
// processes, and its name is a number.
fn is_of_descriptor(rt: &HostRuntime, path: &str, link: &Metadata) -> io::Result<bool> {
    let name = path.rsplit_once("/").map_or(path, |(_, name)| name);
    if name.parse::<u64>().is_err() {
        return Ok(false);
    }
    let folder = if_there(fs::metadata(rt, DESCRIPTORS))?;
    Ok(folder.is_some_and(|folder| folder.dev() == link.dev()))
}

/// Follows the symbolic links at the end of a path, up to a descriptor. The error is
/// `InvalidFilename` if one leads to a name that is no text, that the links don't end, or the
/// system's.
pub fn follow(rt: &HostRuntime, path: &str) -> io::Result<Followed> {
    let mut name = String::from_str(rt.alloc(), path)?;
    let mut folders = Vec::new(rt.alloc());
    for _ in 0..=MAX_LINKS {
        if let Some(number) = descriptor_of(name.as_str()) {
            return Ok(Followed::Descriptor(number));
        }
        match if_there(fs::symlink_metadata(rt, name.as_str()))? {
            Some(link) if link.is_symlink() => {
                if is_of_descriptor(rt, name.as_str(), &link)? {
                    return Ok(Followed::OtherDescriptor);
                }
            }
            _ => return Ok(Followed::Path { name, folders }),
        }
        folders.push(folder_mode(rt, name.as_str())?)?;
        name = linked(rt, name.as_str())?;
    }
    Err(io::Error::from(ErrorKind::FilesystemLoop))
}

// ---- how they stand

// The value of a line of the system's text on a descriptor.
fn value_of<'a>(text: &'a str, name: &str) -> Option<&'a str> {
    text.lines()
        .find_map(|line| line.strip_prefix(name))
        .map(|value| value.trim())
}

/// The state of a descriptor, read from `/proc`: std opens files by name alone, and a name has no
/// position. The error is `NotFound` if the descriptor is closed, `InvalidData` if its text has no
/// position or no flags, or the system's.
pub fn descriptor_state_of(rt: &HostRuntime, number: u64) -> io::Result<DescriptorState> {
    let path = format!(in rt.alloc(); "/proc/self/fdinfo/{number}")?;
    let text = fs::read_to_string(rt, path.as_str())?;
    let place = value_of(text.as_str(), "pos:").and_then(|digits| digits.parse().ok());
    let flags = value_of(text.as_str(), "flags:").and_then(|digits| u32::from_str_radix(
        digits, 8,
    ).ok());
    let (Some(place), Some(flags)) = (place, flags) else {
        return Err(io::Error::from(ErrorKind::InvalidData));
    };
    // A standard descriptor was closed, and is occupied. It is known by its access, which is the
    // opposite one: so is one that the caller opened so.
    let access = flags & ACCESS;
    if number == 0 && access == WRITE_ONLY || matches!(number, 1 | 2) && access == READ_ONLY {
        return Err(io::Error::from(ErrorKind::NotFound));
    }
    Ok(DescriptorState {
        place,
        writes: access != READ_ONLY,
    })
}
