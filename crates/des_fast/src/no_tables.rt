//! The five ciphers with no table read at an index that depends on a key or a block, and no branch
//! on either: the boxes are selections between vectors. They have the names and definitions of
//! the ciphers that read tables, the traits of `des::cipher`, answer alike, and take three times as
//! long for a block. The blocks of a list go four side by side, in about half that time. The calls
//! of `many` are those of the others, with the argument `no_tables`.
//!
//! The source is written so. That a compiler keeps to it on each processor is not proved, and no
//! claim is made on the time that a call takes.

mod boxes;
mod four_blocks;

use crate::box_lookup::NoTables;
use crate::single;
use des::tdes::{Ede2, Ede3, Eee2, Eee3};

/// DES under one key, with no table read at an index that depends on the key or a block.
pub type Des = single::Des<NoTables>;

/// Triple DES in the EDE form over the `Des` of this module, with a key of 16 bytes, two parts.
pub type TdesEde2 = Ede2<Des>;

/// Triple DES in the EDE form over the `Des` of this module, with a key of 24 bytes, three parts.
pub type TdesEde3 = Ede3<Des>;

/// Triple DES in the EEE form over the `Des` of this module, with a key of 16 bytes, two parts.
pub type TdesEee2 = Eee2<Des>;

/// Triple DES in the EEE form over the `Des` of this module, with a key of 24 bytes, three parts.
pub type TdesEee3 = Eee3<Des>;
