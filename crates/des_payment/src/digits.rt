//! Digits of four bits, two a byte.

ghost use Rattle.std.specs.Prelude.{◌≡◌, ◌<◌, ◌*◌, length};
ghost use Rattle.std.specs.List.{All};
ghost use Rattle.des.specs.Blocks.{AreBytes, IsBlock};
ghost use Rattle.des_payment.specs.Digits.{digits_of as digits_in, bytes_of};

// Writes the digits of bytes.
pub(crate) fn write_digits(bytes: &[u8], digits: &mut [u8])
    requires { length digits.old ≡ 2 * length bytes.now }
    ensures { digits.new ≡ digits_in bytes.now }
{
    for (i, byte) in bytes.iter().enumerate() {
        digits[2 * i] = byte / 16;
        digits[2 * i + 1] = byte % 16;
    }
}

// The digits of a block.
pub(crate) fn digits_of(block: &[u8; 8]) -> [u8; 16]
    ensures { result ≡ digits_in block.now }
{
    let mut digits = [0; 16];
    write_digits(block, &mut digits);
    digits
}

// Writes the bytes of digits.
pub(crate) fn write_bytes(digits: &[u8], bytes: &mut [u8])
    requires count { length digits.now ≡ 2 * length bytes.old }
    requires digits { All (λ digit. digit < 16) digits.now }
    ensures are_bytes { AreBytes bytes.new }
    ensures digits { digits_in bytes.new ≡ digits.now }
    ensures bytes { bytes.new ≡ bytes_of digits.now }
{
    for (i, byte) in bytes.iter_mut().enumerate() {
        *byte = 16 * digits[2 * i] + digits[2 * i + 1];
    }
}

// The block of sixteen digits.
pub(crate) fn block_of(digits: &[u8]) -> [u8; 8]
    requires count { length digits.now ≡ 16 }
    requires digits { All (λ digit. digit < 16) digits.now }
    ensures block { IsBlock result }
    ensures digits { digits_in result ≡ digits.now }
    ensures bytes { result ≡ bytes_of digits.now }
{
    let mut block = [0; 8];
    write_bytes(digits, &mut block);
    block
}
