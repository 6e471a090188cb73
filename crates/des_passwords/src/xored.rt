//! Bytes xored.

ghost use Rattle.std.specs.Prelude.{◌≡◌, ℕ, length, bit_xor};
ghost use Rattle.std.specs.Simd.Lanes.{zip2};
ghost use Rattle.des_passwords.specs.Hmac.{xored};

// Xors bytes with others, as many.
pub(crate) fn xor(bytes: &mut [u8], others: &[u8])
    requires { length bytes.old ≡ length others.now }
    ensures { bytes.new ≡ zip2 bit_xor bytes.old others.now }
{
    for (i, other) in others.iter().enumerate() {
        bytes[i] ^= other;
    }
}

// The block xored with a pad, one byte repeated.
pub(crate) fn xored(block: &[u8; 64], pad: u8) -> [u8; 64]
    ensures { result ≡ xored block.now pad }
{
    let mut answer = *block;
    xor(&mut answer, &[pad; 64]);
    answer
}
