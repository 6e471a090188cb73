//! The paddings of ISO/IEC 9797-1:2011, which make whole blocks of 8 bytes of any message.

ghost use Rattle.std.specs.Prelude.{◌≡◌, ◌+◌, ◌≤◌, ◌<◌, ℕ, List, [], ◌∷◌, ◌++◌, length};
ghost use Rattle.des_mac.specs.Padding.{last_count, AreWholeBlocks, zeros_after, one_bit_after, padded};
ghost use Rattle.des_mac.specs.Laws.Paddings.{AreWholeBlocks-zeros_after, AreWholeBlocks-one_bit_after};
ghost use Rattle.des_mac.specs.Laws.Unambiguous.{one_bit_after-unambiguous};

/// A padding, which goes after the bytes of a message.
pub trait Padding {
    // What goes after n bytes.
    ghost padding_after: { ℕ → List ℕ };

    /// The padding of a message of which `count` bytes stand in its last block: from 1 to 8, or 0
    /// if the message has no bytes.
    fn padding(count: usize) -> &'static [u8]
        requires { count ≤ 8 }
        ensures { (n : ℕ) → last_count n ≡ count → result.now ≡ padding_after n };

    // With the padding the message is whole blocks, one at least.
    ghost makes_whole_blocks: { (n : ℕ) → AreWholeBlocks (n + length (padding_after n)) };
}

/// A padding that tells where the message ends: no two messages have the same padded bytes.
pub trait UnambiguousPadding: Padding {
    // Two messages with the same padded bytes are one.
    ghost is_unambiguous: { (m n : List ℕ)
        → padded Self.padding_after m ≡ padded Self.padding_after n → m ≡ n };
}

const ZEROS: [u8; 8] = [0; 8];

const ONE_BIT: [u8; 8] = [0x80, 0, 0, 0, 0, 0, 0, 0];

/// Padding method 1 (6.3.2): as few zeros as make whole blocks, one block at least. It cannot tell
/// zeros at the end of a message from none.
pub struct Method1;

impl Padding for Method1 {
    ghost padding_after = { zeros_after };

    fn padding(count: usize) -> &'static [u8]
        requires { count ≤ 8 }
        ensures padding { (n : ℕ) → last_count n ≡ count → result.now ≡ zeros_after n }
        // A zero after a last block that is not whole does not show.
        ensures ambiguous { (m : List ℕ) → last_count (length m) < 8
            → padded zeros_after (m ++ 0 ∷ []) ≡ padded zeros_after m }
    {
        &ZEROS[count..]
    }

    ghost makes_whole_blocks = { AreWholeBlocks-zeros_after };
}

/// Padding method 2 (6.3.3): a one bit, and then as few zeros as make whole blocks.
pub struct Method2;

impl Padding for Method2 {
    ghost padding_after = { one_bit_after };

    fn padding(count: usize) -> &'static [u8] {
        &ONE_BIT[..8 - count % 8]
    }

    ghost makes_whole_blocks = { AreWholeBlocks-one_bit_after };
}

impl UnambiguousPadding for Method2 {
    ghost is_unambiguous = { one_bit_after-unambiguous };
}
