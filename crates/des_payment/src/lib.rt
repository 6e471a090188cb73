//! Payment formats above the ciphers of `des` and `des_fast`: check values, keys of components, PIN
//! blocks (ISO 9564-1), the keys of a transaction (DUKPT, ANSI X9.24-1:2009) at the host and in the
//! terminal, card verification values, and card cryptograms (EMV 4.3, Book 2). `check_value_lists`
//! and `transaction_lists` make those of many keys and of many transactions at once.
//!
//! Digits that a person reads (PINs, account numbers, dates) are texts, slices of ASCII digits. No
//! call takes memory or panics, and no `Debug` text or error tells a key, a PIN or an account
//! number. No table is read at an index that depends on a key or a PIN: one block goes by the
//! ciphers of `des_fast::no_tables`. (`check_value` takes the cipher that its caller names.) No
//! claim is made on the time that a call takes.
#![tactic(auto)]

pub mod card_verification;
pub mod check_value_lists;
pub mod check_values;
pub mod components;
pub mod cvv_error;
pub mod decimal_table;
mod decimals;
mod digits;
pub mod dukpt;
pub mod emv;
pub mod emv_error;
mod fields;
mod filling;
mod masks;
mod passes;
pub mod pin;
pub mod pin_blocks;
pub mod pin_error;
pub mod pin_verification;
pub mod terminal;
mod texts;
pub mod transaction_lists;
pub mod translation;
pub mod translation_error;
pub mod verification_error;
mod xor;

pub use card_verification::cvv;
pub use check_values::{check_value, key_check_value, short_key_check_value};
pub use components::{combine, set_odd_parity};
pub use cvv_error::CvvError;
pub use decimal_table::DecimalTable;
pub use pin::Pin;
pub use pin_error::PinError;
pub use texts::are_digits;
pub use translation_error::TranslationError;
pub use verification_error::VerificationError;
