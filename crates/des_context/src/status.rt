//! The statuses of `cukvashe_des.h`: made of it by `bindings/describe`. Their numbers never change,
//! since they are compiled into the programs that call the library.

/// Success.
pub const OK: i32 = 0;

/// The key does not have a length that the call takes.
pub const ERR_KEY_LENGTH: i32 = 1;

/// The length is not a multiple of 8 bytes.
pub const ERR_BLOCKS: i32 = 2;

/// The key is weak, or two of its parts are one key.
pub const ERR_WEAK_KEY: i32 = 3;

/// The padding method is not one that the call takes.
pub const ERR_PADDING_METHOD: i32 = 4;

/// The tag is not that of the message.
pub const ERR_TAG: i32 = 5;

/// There is no next key serial number.
pub const ERR_NO_SERIAL: i32 = 6;

/// The first digit of the PIN block is not that of the format.
pub const ERR_FORMAT: i32 = 7;

/// The PIN does not have 4 to 12 digits.
pub const ERR_PIN_LENGTH: i32 = 8;

/// A character of the PIN is not a digit.
pub const ERR_PIN_DIGIT: i32 = 9;

/// The account number does not have 8 to 19 digits, for a PVV or a CVV 12 to 19.
pub const ERR_ACCOUNT_LENGTH: i32 = 10;

/// A character of the account number is not a digit.
pub const ERR_ACCOUNT_DIGIT: i32 = 11;

/// A fill digit is not one that the format allows.
pub const ERR_FILL: i32 = 12;

/// The expiry date does not have four digits.
pub const ERR_EXPIRY_LENGTH: i32 = 13;

/// A character of the expiry date is not a digit.
pub const ERR_EXPIRY_DIGIT: i32 = 14;

/// The service code does not have three digits.
pub const ERR_SERVICE_LENGTH: i32 = 15;

/// A character of the service code is not a digit.
pub const ERR_SERVICE_DIGIT: i32 = 16;

/// The data do not end with the padding.
pub const ERR_PADDING: i32 = 17;

/// The buffer is too small for all that the call would write.
pub const ERR_CAPACITY: i32 = 18;

/// The numbers of elements do not agree: a count, or a sum of counts, and a length.
pub const ERR_COUNTS: i32 = 19;

/// The index of the key pair is not 1 to 6.
pub const ERR_KEY_INDEX: i32 = 20;

/// The decimalization table does not have sixteen digits.
pub const ERR_TABLE_LENGTH: i32 = 21;

/// A character of the decimalization table is not a digit.
pub const ERR_TABLE_DIGIT: i32 = 22;

/// The decimalization table has fewer than eight different digits.
pub const ERR_TABLE_VARIETY: i32 = 23;

/// The PIN is wrong.
pub const ERR_WRONG_PIN: i32 = 24;

/// There is no translation of PIN blocks from this format, only from 0, 1 and 3.
pub const ERR_FORMATS: i32 = 25;

/// Decrypted, the PIN block is not one of its format and account number.
pub const ERR_PIN_BLOCK: i32 = 26;

/// The sequence number does not have two digits.
pub const ERR_SEQUENCE_LENGTH: i32 = 27;

/// A character of the sequence number is not a digit.
pub const ERR_SEQUENCE_DIGIT: i32 = 28;

/// The issuer's data have more than 8 bytes.
pub const ERR_DATA_LENGTH: i32 = 29;

/// The protection key does not have 16 or 24 bytes.
pub const ERR_PROTECTION_KEY_LENGTH: i32 = 30;

/// The key block is not as long as its header says, longer than 9999 characters, or too long for
/// its buffer.
pub const ERR_KEY_BLOCK_LENGTH: i32 = 31;

/// The version of the key block is not one that the call takes.
pub const ERR_VERSION: i32 = 32;

/// The header does not end with two digits, 0, 1 or 2, and 0, or a field to be written is not
/// letters and digits.
pub const ERR_HEADER: i32 = 33;

/// The optional blocks can't be read or written: a wrong length, name, content or PB, an end off a
/// multiple of eight, or more than 99.
pub const ERR_OPTIONAL_BLOCK: i32 = 34;

/// The encrypted key data do not have a length that they can have.
pub const ERR_KEY_DATA_LENGTH: i32 = 35;

/// A character of the encrypted key data or the MAC is not 0 to 9 or A to F.
pub const ERR_KEY_BLOCK_DIGIT: i32 = 36;

/// The MAC is not that of the key block.
pub const ERR_KEY_BLOCK_MAC: i32 = 37;

/// The padding of the key does not have 6, 14 or 22 bytes, or has more than 30 with the key.
pub const ERR_PADDING_LENGTH: i32 = 38;

/// The key block has no optional block at this place.
pub const ERR_NO_OPTIONAL_BLOCK: i32 = 39;

/// The hash function is not one that the call takes.
pub const ERR_HASH: i32 = 40;

/// The number of iterations is not 1 to 2^32 - 1.
pub const ERR_ITERATIONS: i32 = 41;

/// The bytes do not begin with Salted__.
pub const ERR_NOT_SALTED: i32 = 42;

/// The bytes end within the salt, or it does not have 0 or 8 bytes.
pub const ERR_SALT_LENGTH: i32 = 43;

/// The context is not one that the init of this type made.
pub const ERR_CONTEXT: i32 = 44;

/// The mode is not one that the call takes.
pub const ERR_MODE: i32 = 45;

/// The stream is not one that was begun.
pub const ERR_STREAM: i32 = 46;

/// The wrapped key does not have 24 bytes or more, a multiple of 8 (CMS), or 12 or more, a multiple
/// of 4 (TKW).
pub const ERR_WRAPPED_LENGTH: i32 = 47;

/// The bytes are no key wrapped under the protection key, or were changed.
pub const ERR_WRAPPED_KEY: i32 = 48;

/// The value is none that MySQL encrypted.
pub const ERR_NOT_ENCRYPTED: i32 = 49;

/// Some values can't be read: their statuses say why.
pub const ERR_VALUES: i32 = 50;

/// The algorithm is not one that the call takes.
pub const ERR_ALGORITHM: i32 = 51;

/// The value is not Base64.
pub const ERR_BASE64: i32 = 52;

/// The number is not 0 to 9, or the file has no key of that number.
pub const ERR_KEY_NUMBER: i32 = 53;

/// What the call would write overlaps what it reads.
pub const ERR_OVERLAP: i32 = 54;
