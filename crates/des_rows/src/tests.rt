//! Tests of `des` over several of its modules, and of the ciphers and callers here.

mod blocks;
mod ciphers;
mod generic;
mod known;
mod weak_keys;
