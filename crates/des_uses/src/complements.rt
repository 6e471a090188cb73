//! Complements by generic code: what the laws of `Complementing` give to a caller.

ghost use Rattle.std.specs.Prelude.{◌≡◌, ◌↔◌, length, IsOk, OnOk, OnErr};
ghost use Rattle.des.specs.Complement.{complement};

use des::cipher::{BlockCipherDecrypt, BlockCipherEncrypt, Complementing, InvalidLength, KeyInit};

/// Turns each bit of the bytes, in place.
pub fn complement_bytes(bytes: &mut [u8])
    ensures { bytes.new ≡ complement bytes.old }
{
    for byte in bytes.iter_mut() {
        *byte = !*byte;
    }
}

/// Complements a key and a block of 8 bytes, in place, and encrypts the one under the other: the
/// block becomes the complement of what the key as it was makes of the block as it was.
/// `InvalidLength` if the key does not have `KEY_SIZE` bytes: then both are complemented alone.
pub fn encrypt_complements<C: Complementing + Drop>(
    key: &mut [u8],
    block: &mut [u8; 8],
) -> Result<(), InvalidLength>
    ensures accepted { IsOk result ↔ (length key.old ≡ C.KEY_SIZE) }
    ensures processed { OnOk result (block.new ≡ complement (C.encryption key.old block.old)) }
    ensures refused { OnErr result (block.new ≡ complement block.old) }
    ensures key { key.new ≡ complement key.old }
{
    complement_bytes(key);
    complement_bytes(block);
    C::new_from_slice(key)?.encrypt_block(block);
    Ok(())
}

/// Decrypts the complement under the complement of the key.
pub fn decrypt_complements<C: Complementing + Drop>(
    key: &mut [u8],
    block: &mut [u8; 8],
) -> Result<(), InvalidLength>
    ensures accepted { IsOk result ↔ (length key.old ≡ C.KEY_SIZE) }
    ensures processed { OnOk result (block.new ≡ complement (C.decryption key.old block.old)) }
    ensures refused { OnErr result (block.new ≡ complement block.old) }
    ensures key { key.new ≡ complement key.old }
{
    complement_bytes(key);
    complement_bytes(block);
    C::new_from_slice(key)?.decrypt_block(block);
    Ok(())
}
