//! Payment formats: what the clauses of `des_payment` give to callers.

pub mod check_values;
pub mod dukpt;
pub mod emv;
pub mod key_lists;
pub mod pin_verification;
pub mod terminals;
pub mod translation;
