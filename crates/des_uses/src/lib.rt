//! What stands above the ciphers of `des` and `des_fast`, the MACs, the modes, key wraps, streams,
//! columns and the payment formats: callers that rest on their contracts and laws alone, and a
//! single DES of one's own. Nothing here is part of the product.
#![tactic(auto)]

pub mod both_libraries;
pub mod buffers;
pub mod by_relation;
pub mod clones;
pub mod columns;
pub mod complements;
pub mod each_key;
pub mod fast_lists;
pub mod kept_macs;
pub mod key_wraps;
pub mod long_records;
pub mod macs;
pub mod macs_by_relation;
pub mod macs_by_type;
pub mod many_macs;
pub mod own_des;
pub mod partners;
pub mod payment;
pub mod records;
pub mod round_keys;
pub mod spread_lists;
pub mod spread_records;
pub mod stream_ciphers;
pub mod streams;
pub mod verdicts;
