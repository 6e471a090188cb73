//! Half blocks in the layout that the rounds use.
//!
//! A word of groups holds 48 bits in eight groups of six, each in the last six bits of a byte: the
//! groups 1, 3, 5 and 7 in bytes 1 to 4, the groups 2, 4, 6 and 8 in bytes 5 to 8. So the expansion
//! E of a half block is the half block rotated, once for each four bytes.

ghost use Rattle.std.specs.Prelude.{◌≡◌, bit_xor};
ghost use Rattle.des.specs.Bits.{bits_of_bytes, bits_of_word};
ghost use Rattle.des.specs.Blocks.{IsBlock, block_of_bits};
ghost use Rattle.des_fast.specs.Groups.{IsOfGroups};

/// The word of a block, whose first byte is the most significant.
#[inline(always)]
pub(crate) fn word_of(block: &[u8; 8]) -> u64
    ensures is_block { IsBlock block.now }
    ensures bits { bits_of_word result ≡ bits_of_bytes block.now }
{
    u64::from_be_bytes(*block)
}

/// The block of a word.
#[inline(always)]
pub(crate) fn block_of(word: u64) -> [u8; 8]
    ensures { result ≡ block_of_bits (bits_of_word word) }
{
    // As `to_be_bytes`, which the compiler stores byte by byte.
    word.swap_bytes().to_le_bytes()
}

/// A round key, 48 bits in a word of groups.
#[derive(Clone, Copy)]
pub struct RoundKey {
    pub(crate) groups: u64,
    ghost of_groups: { IsOfGroups groups },
}

impl RoundKey {
    /// The bits in which the two keys differ.
    #[inline(always)]
    pub(crate) fn xor(self, other: RoundKey) -> RoundKey
        ensures { result.groups ≡ bit_xor self.groups other.groups }
    {
        RoundKey {
            groups: self.groups ^ other.groups,
        }
    }
}
