//! What the system tells of a file or a folder: its kind, who may use it, and whose it is.

ghost use Rattle.std.specs.Prelude.{◌≡◌, ◌↔◌, IsTrue};
ghost use Rattle.std.specs.Fs.{metadata_mode};
ghost use Rattle.des_commands.specs.Inodes.{HasOtherUsers, IsRefusedInSticky};

use std::fs::Metadata;
use std::os::unix::fs::MetadataExt;

// The bits of a mode that tell the kind, and those of a regular file and of a named pipe.
const KIND: u32 = 0o170000;

const REGULAR: u32 = 0o100000;

const FIFO: u32 = 0o010000;

// The bits of a folder where only owners remove files, where its group may write, and where
// everyone may.
const STICKY: u32 = 0o1000;

const GROUP_WRITES: u32 = 0o020;

const OTHERS_WRITE: u32 = 0o002;

// What others than the owner may do.
const RIGHTS_OF_OTHERS: u32 = 0o077;

/// What the system tells of a file or a folder.
#[derive(Clone, Copy)]
pub struct Inode {
    /// The kind, and who may do what.
    pub mode: u32,
    /// The user whose it is.
    pub owner: u32,
}

/// What metadata tell.
pub fn inode_of(metadata: &Metadata) -> Inode
    ensures { result.mode ≡ metadata_mode metadata.now }
{
    Inode {
        mode: metadata.mode(),
        owner: metadata.uid(),
    }
}

/// Whether Linux would refuse a file to a user who opens it with `O_CREAT`, if
/// `fs.protected_regular` and `fs.protected_fifos` are 2: a regular file or a named pipe of another
/// user, who is not the folder's owner, in a sticky folder that its group or everyone may write.
pub fn is_refused_in_sticky(folder: Inode, file: Inode, user: u32) -> bool
    ensures { IsTrue result ↔ IsRefusedInSticky folder file user }
{
    let kind = file.mode & KIND;
    folder.mode & STICKY != 0
        && (folder.mode & OTHERS_WRITE != 0 || folder.mode & GROUP_WRITES != 0)
        && (kind == REGULAR || kind == FIFO)
        && file.owner != folder.owner
        && file.owner != user
}

/// Whether others than a user have rights to a file: it is another's, or its mode gives some.
pub fn has_other_users(file: Inode, user: u32) -> bool
    ensures { IsTrue result ↔ HasOtherUsers file user }
{
    file.owner != user || file.mode & RIGHTS_OF_OTHERS != 0
}
