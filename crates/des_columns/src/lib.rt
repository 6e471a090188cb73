//! Values that databases and frameworks encrypted, in columns and settings. Columns of MySQL and
//! MariaDB (`mysql`, `key_file`) and of pgcrypto (`pgcrypto`) are read (`column`, `one_key`) and
//! written (`writing`). So are strings of Jasypt (`jasypt`), each under a key of its own. `pbe`
//! derives keys from passwords, by the frameworks' names of the algorithms; Java's own
//! `PBEWithMD5AndTripleDES` is in `java`.
//!
//! These read what others wrote, and write it for those that still read it. No value is
//! authenticated: write nothing new by them.
#![tactic(auto)]

mod base64_in_place;
pub mod column;
pub mod form;
pub mod jasypt;
pub mod java;
pub mod key_file;
pub mod mysql;
pub mod one_key;
pub mod pbe;
pub mod pgcrypto;
pub mod status;
mod value_keys;
mod waiting;
pub mod writing;
