//! What the program reads: files, and texts in their sources.

pub mod base64_text;
pub mod files;
pub mod secrets;
pub mod sources;
