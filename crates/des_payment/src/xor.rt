//! Xor of arrays of bytes.

ghost use Rattle.std.specs.Prelude.{◌≡◌};
ghost use Rattle.des.specs.Cbc.{xor_blocks};

// The xor of two arrays, byte by byte.
pub(crate) fn xored<const N: usize>(bytes: &[u8; N], others: &[u8; N]) -> [u8; N]
    ensures { result ≡ xor_blocks bytes.now others.now }
{
    let mut sum = *bytes;
    for (i, byte) in sum.iter_mut().enumerate() {
        *byte ^= others[i];
    }
    sum
}
