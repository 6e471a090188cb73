//! The exports that make a context, and those that encrypt by CBC, block after block at any width.

ghost use Rattle.std.specs.Prelude.{◌≡◌, ◌≢◌, ◌↔◌, ◌+◌, ◌*◌, ℕ, List, length};
ghost use Rattle.des.specs.Cbc.{CbcUnder, next_vector};
ghost use Rattle.des_context.specs.Bytes.{AreBytesOf, FitInto};
ghost use Rattle.des_context.specs.Contexts.{HasSomeCipherType, HasMark, IsContextOf, IsMarked, IsSoundIfMarked};
ghost use Rattle.des_context.specs.CipherTypes.{relation_of};

use des_context::ciphers::NO_MAC;
use des_context::status::{ERR_BLOCKS, ERR_CONTEXT, ERR_KEY_LENGTH, OK};
use des_context::{block_modes, contexts};

/// Makes a context of 17, 33 or 49 words from a key of one, two or three parts of 8 bytes, without
/// tables, so that its calls read none, or with them. The status for a key of any other length is
/// `ERR_KEY_LENGTH`; the context is then unchanged.
#[unsafe(no_mangle)]
pub extern "C" fn cukvashe_internal_init(context: &mut [u64], key: &[u8], no_tables: bool) -> i32
    requires { HasSomeCipherType context.old }
    ensures accepted { (result ≡ OK) ↔ (2 * length key.now + 1 ≡ length context.old) }
    ensures refused { (result ≡ ERR_KEY_LENGTH) ↔ (2 * length key.now + 1 ≢ length context.old) }
    ensures made { result ≡ OK → IsContextOf context.new key.now }
    ensures no_tables { result ≡ OK → IsMarked NO_MAC no_tables context.new }
    ensures kept { result ≢ OK → context.new ≡ context.old }
{
    contexts::init(context, key, no_tables)
}

/// Encrypts bytes in place by CBC from the vector, which becomes the last ciphertext block. The
/// status is `ERR_BLOCKS` if the bytes are not whole blocks; they and the vector are then
/// unchanged.
#[unsafe(no_mangle)]
pub extern "C" fn cukvashe_internal_encrypt_cbc(
    context: &[u64],
    iv: &mut [u8; 8],
    blocks: &mut [[u8; 8]],
    size: usize,
) -> i32
    requires { IsSoundIfMarked context.now }
    ensures unmarked { (result ≡ ERR_CONTEXT) ↔ ¬ (HasMark NO_MAC context.now) }
    ensures accepted { (result ≡ OK) ↔ (HasMark NO_MAC context.now × AreBytesOf blocks.old size) }
    ensures refused { (result ≡ ERR_BLOCKS)
        ↔ (HasMark NO_MAC context.now × ¬ (AreBytesOf blocks.old size)) }
    ensures chained { result ≡ OK → (key : List ℕ) → IsContextOf context.now key
        → CbcUnder (relation_of key) iv.old blocks.old blocks.new }
    ensures goes_on { result ≡ OK → iv.new ≡ next_vector iv.old blocks.new }
    ensures kept { result ≢ OK → (blocks.new ≡ blocks.old) × (iv.new ≡ iv.old) }
{
    block_modes::encrypt_cbc(context, iv, blocks, size)
}

/// Writes the bytes of `input`, encrypted as by `cukvashe_internal_encrypt_cbc`, to `output`. The
/// status is `ERR_BLOCKS` if they are not whole blocks or the two differ in length; `output` and
/// the vector are then unchanged.
#[unsafe(no_mangle)]
pub extern "C" fn cukvashe_internal_encrypt_cbc_to(
    context: &[u64],
    iv: &mut [u8; 8],
    input: &[[u8; 8]],
    output: &mut [[u8; 8]],
    size: usize,
) -> i32
    requires { IsSoundIfMarked context.now }
    ensures unmarked { (result ≡ ERR_CONTEXT) ↔ ¬ (HasMark NO_MAC context.now) }
    ensures accepted { (result ≡ OK)
        ↔ (HasMark NO_MAC context.now × FitInto output.old input.now size) }
    ensures refused { (result ≡ ERR_BLOCKS)
        ↔ (HasMark NO_MAC context.now × ¬ (FitInto output.old input.now size)) }
    ensures chained { result ≡ OK → (key : List ℕ) → IsContextOf context.now key
        → CbcUnder (relation_of key) iv.old input.now output.new }
    ensures goes_on { result ≡ OK → iv.new ≡ next_vector iv.old output.new }
    ensures kept { result ≢ OK → (output.new ≡ output.old) × (iv.new ≡ iv.old) }
{
    match block_modes::copy_whole(context, input, output, size) {
        OK => block_modes::encrypt_cbc(context, iv, output, size),
        status => status,
    }
}
