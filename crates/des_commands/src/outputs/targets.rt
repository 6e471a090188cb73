//! Output files. A regular file is replaced when all of it is written, and not before.

ghost use Rattle.std.specs.Prelude.{◌≡◌, ◌⊎◌, ◌↔◌};
ghost use Rattle.std.specs.IoError.{error_kind};

use super::inodes::{has_other_users, inode_of, is_refused_in_sticky};
use crate::descriptors::{Followed, descriptor_state_of, folder_of, follow, has_shared, if_there};
use crate::inputs::files::system_random;
use des_lines::fault::{Fault, FaultKind, Misuse, Reason};
use des_lines::source::{Source, shown};
use des_requests::streams::Output;
use std::fs::{self, File, Metadata, OpenOptions, Permissions};
use std::io::{self, ErrorKind, IsTerminal};
use std::os::unix::fs::{MetadataExt, OpenOptionsExt, PermissionsExt, fchown};
use std::path::Path;

// What the system tells of this process, and of its standard output.
const OWN_FOLDER: &str = "/proc/self";

const STANDARD_OUTPUT: &str = "/proc/self/fd/1";

// Who may read, write and run a file, of the bits of its mode: all, and the owner.
const PERMISSION_BITS: u32 = 0o777;

const OWNER_BITS: u32 = 0o700;

// A file is its owner's alone while it is written.
const MODE_IN_WRITING: u32 = 0o600;

// What programs ask for a new file, before the umask takes bits away.
const MODE_OF_NEW_FILES: u32 = 0o666;

// The random names that are tried if there are files of these names already.
const MAX_NAMES: u32 = 16;

/// A file beside the one that it is to replace, which only its owner may read.
#[derive(Drop)]
pub struct PrivateFile {
    target: String,
    beside: String,
    // The file that it replaces, if there is one. While it is open, no other file gets its number.
    old: Option<File>,
    // The permissions that it gets at its end.
    mode: u32,
    /// Others than its owner had rights to the file that it replaces, and have none to it.
    pub narrows: bool,
    /// Where the bytes go.
    pub file: File,
}

/// Who may read what is written to a file.
#[derive(Clone, Copy, PartialEq, Eq)]
pub enum Access {
    /// Who may read a new file of the folder. If a file is replaced, its owner alone: what others
    /// could do may stand in an access list, which std neither tells of nor sets.
    OfFolder,
    /// Its owner alone.
    Owner,
}

/// What the path of an output names.
#[derive(Drop)]
pub enum Target {
    /// Standard output.
    StandardOutput,
    /// A pipe, a device or a descriptor, which is written to as it is.
    AsItIs(File),
    /// A regular file, or none, which is replaced at the end.
    Replaced(PrivateFile),
}

/// The fault of an error that says why an output can't be written.
pub fn write_fault(error: io::Error) -> FaultKind
    ensures fault { (result ≡ FaultKind.Memory) ⊎ ((reason : Reason) × (result ≡ FaultKind.Write reason)) }
    ensures memory { (result ≡ FaultKind.Memory) ↔ (error_kind error ≡ ErrorKind.OutOfMemory) }
{
    match error.kind() {
        ErrorKind::OutOfMemory => FaultKind::Memory,
        _ => FaultKind::Write(Reason::of(&error)),
    }
}

/// What a fault of the output is about.
pub fn output_name<'a>(output: Output<'a>) -> &'a str {
    match output {
        Output::File(path) => shown(path),
        _ => "standard output",
    }
}

/// The fault of a stream whose bytes would go to a terminal that is not asked for: `Terminal`. The
/// system's `isatty` says what a terminal is.
pub fn refuse_terminal<'a>(rt: &HostRuntime, output: Output) -> Result<(), Fault<'a>> {
    match output {
        Output::Unnamed if rt.stdout().is_terminal() => {
            Err(Fault::about(FaultKind::Usage(Misuse::Terminal), ""))
        }
        _ => Ok(()),
    }
}

/// Opens an output, unless it is the regular file of the secret, which it would replace. The fault
/// is `Write`, `Memory`, or `Source` if the system gives no random bytes for a name.
pub fn open(
    rt: &HostRuntime,
    output: Output,
    readers: Access,
    secret: Source,
) -> Result<Target, FaultKind> {
    let path = match output {
        Output::File(path) => path,
        _ => STANDARD_OUTPUT,
    };
    refuse_file(rt, path, secret, Reason::IsSecret)?;
    match follow(rt, path).map_err(write_fault)? {
        Followed::Descriptor(number) => open_descriptor(rt, number),
        Followed::OtherDescriptor => Err(FaultKind::Write(Reason::Descriptor)),
        Followed::Path { name, folders } => {
            open_path(rt, path, name, has_shared(folders.as_slice()), readers)
        }
    }
}

// The file is looked up by the path as given, so that the system can refuse to follow another
// user's link. It does not check this when a file is made: so none is made through a link that
// stands in a folder where everyone may write.
fn open_path(
    rt: &HostRuntime,
    path: &str,
    name: String,
    is_shared: bool,
    readers: Access,
) -> Result<Target, FaultKind> {
    match if_there(fs::metadata(rt, path)).map_err(write_fault)? {
        Some(old) => open_old(rt, name, old),
        None if is_shared => Err(FaultKind::Write(Reason::Permission)),
        None => open_new(rt, name, readers),
    }
}

// The fault of a file that was there, and can't be opened.
fn open_fault(error: io::Error) -> FaultKind {
    match error.kind() {
        ErrorKind::NotFound => FaultKind::Write(Reason::Changed),
        _ => write_fault(error),
    }
}

// The user who runs this, whose its folder of the system is, if the system has one.
fn own_user(rt: &HostRuntime) -> Option<u32> {
    Some(fs::metadata(rt, OWN_FOLDER).ok()?.uid())
}

// Opens the file that was looked up, by a name that is not a link. A shell opens with `O_CREAT`:
// the system then refuses another user's file in a folder where many may write, but it also makes a
// file, wherever a link leads that has taken the name since. So this opens without `O_CREAT`, and
// applies the system's rule itself.
fn open_looked_up(rt: &HostRuntime, name: &str, old: &Metadata) -> Result<File, FaultKind> {
    let folder = fs::metadata(rt, folder_of(name)).map_err(open_fault)?;
    let user = own_user(rt).unwrap_or(folder.uid());
    if is_refused_in_sticky(inode_of(&folder), inode_of(old), user) {
        return Err(FaultKind::Write(Reason::Permission));
    }
    let file = OpenOptions::new()
        .write(true)
        .open(rt, name)
        .map_err(open_fault)?;
    let found = file.metadata().map_err(write_fault)?;
    let named = fs::symlink_metadata(rt, name).map_err(open_fault)?;
    if !are_same(&found, old) || !are_same(&named, old) {
        return Err(FaultKind::Write(Reason::Changed));
    }
    Ok(file)
}

// A folder is refused, a regular file is replaced, and anything else is written to as it is. A file
// that may not be written to is not replaced, although the system would let it be.
fn open_old(rt: &HostRuntime, name: String, old: Metadata) -> Result<Target, FaultKind> {
    if old.is_dir() {
        return Err(FaultKind::Write(Reason::IsFolder));
    }
    let file = open_looked_up(rt, name.as_str(), &old)?;
    if !old.is_file() {
        return Ok(Target::AsItIs(file));
    }
    let mode = old.permissions().mode() & OWNER_BITS;
    let narrows = has_other_users(inode_of(&old), own_user(rt).unwrap_or(old.uid()));
    create_private(rt, name, Some(file), mode, narrows)
}

// The permissions of a new file beside a target: those that the system gives one, by the umask or
// the folder's own list, unless it is to be its owner's. An empty file is made, looked at, and
// removed.
fn mode_of(rt: &HostRuntime, target: &str, readers: Access) -> Result<u32, FaultKind> {
    if readers == Access::Owner {
        return Ok(MODE_IN_WRITING);
    }
    let (path, file) = create_beside(rt, target, MODE_OF_NEW_FILES)?;
    let found = file.metadata();
    fs::remove_file(rt, path.as_str()).map_err(write_fault)?;
    Ok(found.map_err(write_fault)?.permissions().mode() & PERMISSION_BITS)
}

// A name that ends with a slash, and an empty one, are no file's.
fn open_new(rt: &HostRuntime, name: String, readers: Access) -> Result<Target, FaultKind> {
    if name.is_empty() {
        return Err(FaultKind::Write(Reason::NotFound));
    }
    if name.as_str().ends_with("/") {
        return Err(FaultKind::Write(Reason::NotFolder));
    }
    let mode = mode_of(rt, name.as_str(), readers)?;
    create_private(rt, name, None, mode, false)
}

// Standard output itself is written to: other programs may share its place. The system opens the
// file of another descriptor anew. So a regular file is refused: what the descriptor's owner writes
// next would go over the output. So is a descriptor that was opened for reading alone.
fn open_descriptor(rt: &HostRuntime, number: u64) -> Result<Target, FaultKind> {
    if number == 1 {
        return Ok(Target::StandardOutput);
    }
    if !descriptor_state_of(rt, number).map_err(write_fault)?.writes {
        return Err(FaultKind::Write(Reason::Permission));
    }
    let path = format!(in rt.alloc(); "/dev/fd/{number}")?;
    let file = OpenOptions::new()
        .write(true)
        .open(rt, path.as_str())
        .map_err(write_fault)?;
    if file.metadata().map_err(write_fault)?.is_file() {
        return Err(FaultKind::Write(Reason::Reopened));
    }
    Ok(Target::AsItIs(file))
}

// ---- inputs and secrets

fn are_same(one: &Metadata, other: &Metadata) -> bool {
    one.dev() == other.dev() && one.ino() == other.ino()
}

// Refuses an output that is the regular file of a source, for a reason.
fn refuse_file(
    rt: &HostRuntime,
    path: &str,
    source: Source,
    reason: Reason,
) -> Result<(), FaultKind> {
    let name = match source {
        Source::StandardInput => String::from_str(rt.alloc(), "/proc/self/fd/0")?,
        Source::File(name) => String::from_str(rt.alloc(), name)?,
        Source::Descriptor(number) => format!(in rt.alloc(); "/proc/self/fd/{number}")?,
        Source::Variable(_) => return Ok(()),
    };
    let output = if_there(fs::metadata(rt, path)).map_err(write_fault)?;
    let other = if_there(fs::metadata(rt, name.as_str())).map_err(write_fault)?;
    match (output, other) {
        (Some(output), Some(other)) if output.is_file() && are_same(&output, &other) => {
            Err(FaultKind::Write(reason))
        }
        _ => Ok(()),
    }
}

/// Refuses an input that is the regular file of standard output, as `cat` does: it would grow for
/// as long as it is read. The fault is `Write` or `Memory`.
pub fn refuse_input(rt: &HostRuntime, input: Source) -> Result<(), FaultKind> {
    refuse_file(rt, STANDARD_OUTPUT, input, Reason::IsInput)
}

// ---- files beside

// A path in the folder of a target, with a name that nobody foresees. It has 26 characters, so it
// fits beside a target whose name is as long as names may be.
fn random_path(rt: &HostRuntime, target: &str) -> Result<String, FaultKind> {
    let number = u64::from_be_bytes(system_random(rt)?);
    let name = format!(in rt.alloc(); ".cukvashe-{number:016x}")?;
    let path = Path::new(target).with_file_name(rt.alloc(), name.as_str())?;
    Ok(path.into_string())
}

// A new file beside a target, and its path. The umask or the folder's own list takes bits of the
// mode away. A file that stands already, or a link, is never opened: another name is tried.
fn create_beside(rt: &HostRuntime, target: &str, mode: u32) -> Result<(String, File), FaultKind> {
    for _ in 0..MAX_NAMES {
        let path = random_path(rt, target)?;
        let created = OpenOptions::new()
            .write(true)
            .create_new(true)
            .mode(mode)
            .open(rt, path.as_str());
        match created {
            Ok(file) => return Ok((path, file)),
            Err(error) => match error.kind() {
                ErrorKind::AlreadyExists => {}
                ErrorKind::PermissionDenied => return Err(FaultKind::Write(Reason::Folder)),
                _ => return Err(write_fault(error)),
            },
        }
    }
    Err(FaultKind::Write(Reason::Exists))
}

// The file that takes the place of a target, which was a file or nothing, and has a mode then.
fn create_private(
    rt: &HostRuntime,
    target: String,
    old: Option<File>,
    mode: u32,
    narrows: bool,
) -> Result<Target, FaultKind> {
    let (beside, file) = create_beside(rt, target.as_str(), MODE_IN_WRITING)?;
    Ok(Target::Replaced(PrivateFile {
        target,
        beside,
        old,
        mode,
        narrows,
        file,
    }))
}

// Refuses what took a name after it was looked up, or left it: it is not replaced, unless that
// comes between this look and the renaming.
fn refuse_changed(rt: &HostRuntime, name: &str, old: &Option<Metadata>) -> Result<(), FaultKind> {
    match (
        old,
        if_there(fs::symlink_metadata(rt, name)).map_err(write_fault)?,
    ) {
        (Some(old), Some(found)) if are_same(old, &found) => Ok(()),
        (None, None) => Ok(()),
        _ => Err(FaultKind::Write(Reason::Changed)),
    }
}

// The fault of a file that can't take the target's name.
fn replace_fault(error: io::Error) -> FaultKind {
    match error.kind() {
        ErrorKind::ResourceBusy => FaultKind::Write(Reason::Busy),
        _ => write_fault(error),
    }
}

impl PrivateFile {
    /// Ends the file. If all went well it is flushed to the disk and takes the target's name.
    /// If anything failed it is removed, and the target is unchanged.
    pub fn end(self, rt: &HostRuntime, outcome: Result<(), FaultKind>) -> Result<(), FaultKind> {
        let outcome = outcome.and_then(|()| self.replace_target(rt));
        if outcome.is_err() {
            // If it can't be removed, at least only its owner may read it.
            let _ = self
                .file
                .set_permissions(Permissions::from_mode(MODE_IN_WRITING));
            let _ = fs::remove_file(rt, self.beside.as_str());
        }
        outcome
    }

    // Flushes the file, gives it its group and permissions if the system lets it, and renames it: a
    // signal on the way leaves its owner's file. Then the folder is flushed if the system lets it.
    // One that may not be read can't be: that is no fault, since the file stands whole under its
    // name.
    fn replace_target(&self, rt: &HostRuntime) -> Result<(), FaultKind> {
        self.file.sync_all().map_err(write_fault)?;
        let old = match &self.old {
            Some(old) => Some(old.metadata().map_err(write_fault)?),
            None => None,
        };
        if let Some(old) = &old {
            let _ = fchown(&self.file, None, Some(old.gid()));
        }
        let _ = self.file.set_permissions(Permissions::from_mode(self.mode));
        refuse_changed(rt, self.target.as_str(), &old)?;
        fs::rename(rt, self.beside.as_str(), self.target.as_str()).map_err(replace_fault)?;
        if let Ok(folder) = File::open(rt, folder_of(self.target.as_str())) {
            let _ = folder.sync_all();
        }
        Ok(())
    }
}
