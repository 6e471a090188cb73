//! The five ciphers of `des`, faster, with the same names, traits and definitions: to change over,
//! edit the crate's name in one `use` line. One block takes a third of the time, a block of a long
//! list a tenth of that. `many` has the calls for long lists, for keys of their own for each block,
//! for chains in step and for records; `no_tables` the ciphers that read no table at an index that
//! depends on the key or the block, `round_keys` those of a cipher as plain words.
//! The traits, `cbc` and the weak key test stay in `des`, and `Des::round_keys` and
//! `Des::distinct_round_keys` are there alone.
//!
//! DES is broken: its key of 56 bits can be searched. It is here for data and protocols that still
//! use it. A block cipher hides nothing about repeated blocks and does not authenticate, and no
//! claim is made on the time that a call takes: `encrypt_block`, `decrypt_block`, `encrypt_blocks`
//! and `decrypt_blocks`, but for those of `no_tables`, read tables at indexes that depend on the
//! key and the blocks. The source of `new` and of the calls of `many` has no such read, whatever
//! the length of a list, unless the argument `no_tables` allows it.
#![tactic(auto)]

mod beside;
pub mod box_lookup;
mod chained_halves;
mod halves;
mod lists;
pub mod many;
pub mod no_tables;
mod one_block;
mod permutations;
pub mod round_keys;
mod rounds;
mod schedule;
mod side_by_side;
pub mod single;
mod slices;
mod table_blocks;
mod tables;
pub mod tdes;

use box_lookup::Tables;
pub use tdes::{TdesEde2, TdesEde3, TdesEee2, TdesEee3};

/// DES under one key, by tables.
pub type Des = single::Des<Tables>;
