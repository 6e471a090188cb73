//! What is done to a stream of bytes.

use crate::mode::BlockMode;
use crate::padding::Padding;

/// A cipher, the mode that it is used in, and the padding of the bytes.
#[derive(Drop)]
pub struct Transformation<'a, C> {
    /// The cipher, with its key.
    pub cipher: &'a C,
    /// How blocks follow each other, and what stands before the first.
    pub mode: BlockMode,
    /// How the bytes are made whole blocks.
    pub padding: Padding,
}
