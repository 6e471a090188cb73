//! The xor of bytes with others.

ghost use Rattle.std.specs.Prelude.{◌≡◌, ◌<◌, ◌≤◌, ◌+◌, ◌*◌, ◌/◌, ◌%◌, ℕ, [], length, slice_index, slice_index_or, bit_xor};
ghost use Rattle.des_modes.specs.Streams.{Xors};

/// Each byte of the data becomes its xor with a byte of the key stream, from byte `from` of it on.
pub fn xor_from(bytes: &mut [u8], key_stream: &[u8], from: usize)
    requires { from + length bytes.old ≤ length key_stream.now }
    ensures { (i : ℕ) → i < length bytes.old → slice_index bytes.new i
        ≡ bit_xor (slice_index bytes.old i) (slice_index key_stream.now (from + i)) }
{
    for (i, byte) in bytes.iter_mut().enumerate() {
        *byte ^= key_stream[from + i];
    }
}

/// Each byte of the data becomes its xor with a byte of the block, from its byte `from` on. A whole
/// block takes no loop: there its length is known.
#[inline]
pub(crate) fn xor_block_from(bytes: &mut [u8], block: &[u8; 8], from: usize)
    requires { from + length bytes.old ≤ 8 }
    ensures { (i : ℕ) → i < length bytes.old → slice_index bytes.new i
        ≡ bit_xor (slice_index bytes.old i) (slice_index block.now (from + i)) }
{
    if bytes.len() == 8 {
        xor_from(bytes, block, 0);
    } else {
        xor_from(bytes, block, from);
    }
}

/// Each byte of the data becomes its xor with a byte of the blocks, from their byte `from` on.
pub(crate) fn xor_blocks_from(bytes: &mut [u8], blocks: &[[u8; 8]], from: usize)
    requires { from + length bytes.old ≤ 8 * length blocks.now }
    ensures { (i : ℕ) → i < length bytes.old → slice_index bytes.new i
        ≡ bit_xor (slice_index bytes.old i)
        (slice_index (slice_index_or blocks.now ((from + i) / 8) []) ((from + i) % 8)) }
{
    xor_from(bytes, blocks.as_flattened(), from);
}

/// Each segment of `segment` bytes of the data becomes its xor with the first bytes of its block.
pub(crate) fn xor_segments(bytes: &mut [u8], blocks: &[[u8; 8]], segment: usize)
    requires some { 1 ≤ segment }
    requires short { segment ≤ 8 }
    requires enough { length bytes.old ≤ segment * length blocks.now }
    ensures { Xors bit_xor 0 0 (λ i. slice_index (slice_index_or blocks.now (i / segment) []) (i % segment))
        bytes.old bytes.new }
{
    if segment == 8 {
        xor_blocks_from(bytes, blocks, 0);
        return;
    }
    for (i, byte) in bytes.iter_mut().enumerate() {
        *byte ^= blocks[i / segment][i % segment];
    }
}
