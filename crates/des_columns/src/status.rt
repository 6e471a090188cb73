//! What calls over columns say of a value, as numbers: those of `cukvashe_des.h`, so that the list
//! that a call writes is what a caller in C gets.

/// The value was read.
pub const OK: i32 = 0;

/// What is encrypted is not whole blocks of 8 bytes, or is empty if there is padding.
pub const ERR_BLOCKS: i32 = 2;

/// Decrypted, the value does not end with the padding, as under a wrong key.
pub const ERR_PADDING: i32 = 17;

/// The value ends within its salt.
pub const ERR_SALT_LENGTH: i32 = 43;

/// The value is none that MySQL encrypted: the server gives it back as it is.
pub const ERR_NOT_ENCRYPTED: i32 = 49;

/// The value is not Base64.
pub const ERR_BASE64: i32 = 52;

/// There is no key of the value's number.
pub const ERR_KEY_NUMBER: i32 = 53;
