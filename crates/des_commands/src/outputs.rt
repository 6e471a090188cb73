//! What the program writes: files, notices and progress.

mod inodes;
pub mod notices;
pub mod progress;
pub mod targets;
