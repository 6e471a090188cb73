//! The library for C. The exports of contexts, MACs, lists, components and passwords are mostly
//! lines over calls of `des_context`. The others call other crates, and have code that turns texts
//! and faults into those of C. Each states what it does, and `bindings/c/cukvashe_des.h` says what
//! a caller has to uphold. A call with a context refuses one without the mark of its type, by
//! `ERR_CONTEXT` and before all else, and then changes nothing.
//!
//! The exports that begin with `cukvashe_internal_` are hidden in the library. The header's calls
//! are thin wrappers over them, in `bindings/c/src`, where `exports.h` declares them. One export
//! serves all ciphers or MACs, and tells them apart by the number of a context's words, the size of
//! a key or a standard's number. Every other export has the name of a call of the header, and
//! mostly its arguments. If it takes or returns a secret, `bindings/c/names` renames it in the
//! library: a wrapper with the header's name calls it, and wipes the stack.
//!
//! `bindings/describe` makes most of that C of the header and of this crate's exports.
//!
//! The exports of `lists`, and no others, depend on the width of vectors. The library has them
//! twice, from this one text: as they stand here, and for vectors of 256 bits.
#![tactic(auto)]

mod contexts;
mod jasypt;
mod key_wrap;
mod keys;
mod lists;
mod macs;
mod padding;
mod passwords;
mod payment;
mod streams;
