//! The exports that go over many blocks at once, and so depend on the width of vectors. What they
//! take of this crate stands here and in the modules below, so that the same text is proved and
//! built for another width by the one line that names it.

mod ciphers;
mod columns;
mod each_key;
mod macs;
mod payment;
mod records;
mod streams;

use std::simd::prelude::*;

/// The vectors over which the bits of blocks lie.
type Width = u64x2;
