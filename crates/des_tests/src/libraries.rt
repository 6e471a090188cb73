//! What no contract says: MACs through the bound that they share, streams that are interrupted, and
//! what clones ask for. `des_rows`, `bindings/test` and the tests of the programs show all else.

mod clones;
mod macs;
mod streams;
