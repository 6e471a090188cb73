//! The traits of block ciphers: their keys, sizes, names and calls, each with its laws. The module
//! stands in place of the Rust crate `cipher`.
//!
//! Generic code may rest on the laws alone, whatever the body of a call is. In a law a byte is a
//! number below 256, a block is eight bytes and a key `KEY_SIZE` bytes.

ghost use Rattle.std.specs.Prelude.{◌≡◌, ◌↔◌, ◌≤◌, ℕ, List, length, map, codes, Some, IsSome, IfSome, IsOk, IfOk, OnOk, OnErr};
ghost use Rattle.std.specs.List.{All};
ghost use Rattle.std.specs.Mem.{type_size};
ghost use Rattle.des.specs.Blocks.{AreBytes, IsKey, IsBlock};
ghost use Rattle.des.specs.Relations.{IsGraphOf};
ghost use Rattle.des.specs.Complement.{complement};

use std::error::Error;
use std::fmt;

/// The error of a key slice whose length is not the key size.
#[derive(Clone, Copy, Debug, PartialEq, Eq)]
pub struct InvalidLength;

/// Writes the type's name, whatever options are set.
impl fmt::Display for InvalidLength {
    ghost output = { λ _. Some (codes "InvalidLength") };

    ghost styled_output = { λ _ _. Some (codes "InvalidLength") };

    fn fmt<W: fmt::Write>(&self, f: &mut fmt::Formatter<W>) -> fmt::Result {
        f.write_str("InvalidLength")
    }
}

impl Error for InvalidLength {}

/// The error of two lists of blocks that differ in length.
#[derive(Clone, Copy, Debug, PartialEq, Eq)]
pub struct NotEqualError;

/// Writes the type's name, whatever options are set.
impl fmt::Display for NotEqualError {
    ghost output = { λ _. Some (codes "NotEqualError") };

    ghost styled_output = { λ _ _. Some (codes "NotEqualError") };

    fn fmt<W: fmt::Write>(&self, f: &mut fmt::Formatter<W>) -> fmt::Result {
        f.write_str("NotEqualError")
    }
}

impl Error for NotEqualError {}

/// A key as an array of bytes: `[u8; 8]`, `[u8; 16]` or `[u8; 24]`.
pub trait KeyBytes: Copy {
    /// The number of bytes.
    const LEN: usize;

    ghost LEN: { ℕ };

    // The bytes of the key, in order.
    ghost bytes_of: { Self → List ℕ };

    /// The bytes of the key, `LEN` of them.
    fn as_bytes(&self) -> &[u8]
        ensures bytes { result.now ≡ bytes_of self.now }
        ensures are_bytes { AreBytes result.now }
        ensures count { length result.now ≡ LEN };

    /// The array of these bytes; `None` if there are not `LEN` of them.
    fn from_bytes(bytes: &[u8]) -> Option<Self>
        ensures found { IsSome result ↔ (length bytes.now ≡ LEN) }
        ensures bytes { IfSome result (λ key. bytes_of key ≡ bytes.now) };

    // Two keys of the same bytes are one.
    ghost bytes_determine: { (key other : Self) → bytes_of key ≡ bytes_of other → key ≡ other };

    // A key takes few bytes, so that an array of keys fits in memory.
    ghost few_bytes: { type_size Self.row ≤ 32 };
}

impl KeyBytes for [u8; 8] {
    ghost use Rattle.std.proofs.Common.{lit≤};

    const LEN: usize = 8;

    ghost LEN = { 8 };

    ghost bytes_of = { λ key. key };

    ghost bytes_determine = { λ _ _ same. same };

    ghost few_bytes = { lit≤ tt };

    fn as_bytes(&self) -> &[u8] {
        self.as_slice()
    }

    fn from_bytes(bytes: &[u8]) -> Option<Self> {
        <[u8; 8]>::try_from(bytes).ok()
    }
}

impl KeyBytes for [u8; 16] {
    ghost use Rattle.std.proofs.Common.{lit≤};

    const LEN: usize = 16;

    ghost LEN = { 16 };

    ghost bytes_of = { λ key. key };

    ghost bytes_determine = { λ _ _ same. same };

    ghost few_bytes = { lit≤ tt };

    fn as_bytes(&self) -> &[u8] {
        self.as_slice()
    }

    fn from_bytes(bytes: &[u8]) -> Option<Self> {
        <[u8; 16]>::try_from(bytes).ok()
    }
}

impl KeyBytes for [u8; 24] {
    ghost use Rattle.std.proofs.Common.{lit≤};

    const LEN: usize = 24;

    ghost LEN = { 24 };

    ghost bytes_of = { λ key. key };

    ghost bytes_determine = { λ _ _ same. same };

    ghost few_bytes = { lit≤ tt };

    fn as_bytes(&self) -> &[u8] {
        self.as_slice()
    }

    fn from_bytes(bytes: &[u8]) -> Option<Self> {
        <[u8; 24]>::try_from(bytes).ok()
    }
}

/// A type with a key size.
pub trait KeySizeUser {
    /// The key.
    type Key: KeyBytes;

    /// The key size in bytes.
    const KEY_SIZE: usize;

    ghost KEY_SIZE: { ℕ };

    // The key size is that of the key.
    ghost key_size_is_len: { KEY_SIZE ≡ Self.Key.LEN };
}

/// A type whose values are made from a key.
pub trait KeyInit: KeySizeUser {
    // The value is one that is made from a key of these bytes.
    ghost is_made_from: { Self → List ℕ → Type 0 };

    /// A value made from the key.
    fn new(key: &Self::Key) -> Self
        ensures { is_made_from result (Self.Key.bytes_of key.now) };

    /// A value made from the bytes of a key, or `InvalidLength` if there are not `KEY_SIZE` of
    /// them.
    fn new_from_slice(key: &[u8]) -> Result<Self, InvalidLength>
        ensures accepted { IsOk result ↔ (length key.now ≡ Self.KEY_SIZE) }
        ensures made { IfOk result (λ value. is_made_from value key.now) }
    {
        match Self::Key::from_bytes(key) {
            Some(key) => Ok(Self::new(&key)),
            None => Err(InvalidLength),
        }
    }
}

/// A type with a block size.
pub trait BlockSizeUser {
    /// The block size in bytes: 8 for each cipher of this module.
    const BLOCK_SIZE: usize;

    ghost BLOCK_SIZE: { ℕ };

    ghost block_size_is_eight: { BLOCK_SIZE ≡ 8 };
}

/// A type that encrypts or decrypts some blocks at a time.
pub trait ParBlocksSizeUser: BlockSizeUser {
    /// The number of blocks that are treated at a time.
    const PAR_BLOCKS: usize;

    ghost PAR_BLOCKS: { ℕ };

    ghost par_blocks_is_positive: { 1 ≤ PAR_BLOCKS };
}

/// A cipher of blocks of 8 bytes that asks for no number of them: `PAR_BLOCKS` is 1, though a list
/// call may treat some blocks side by side.
pub trait OneBlockAtATime: ParBlocksSizeUser {
    ghost par_blocks_is_one: { Self.PAR_BLOCKS ≡ 1 };
}

impl<C: OneBlockAtATime> BlockSizeUser for C {
    ghost use Rattle.std.specs.Prelude.{refl};

    const BLOCK_SIZE: usize = 8;

    ghost BLOCK_SIZE = { 8 };

    ghost block_size_is_eight = { refl };
}

impl<C: OneBlockAtATime> ParBlocksSizeUser for C {
    ghost use Rattle.std.proofs.Common.{lit≤};

    const PAR_BLOCKS: usize = 1;

    ghost PAR_BLOCKS = { 1 };

    ghost par_blocks_is_positive = { lit≤ tt };
}

/// A type with the name of an algorithm.
pub trait AlgorithmName {
    /// The type's name, such as `Des`.
    const NAME: &'static str;
}

/// A function for the proof alone: the numbers in a slice of bytes are below 256, as the laws ask.
/// Otherwise a proof knows only the length of a slice.
pub fn are_bytes(bytes: &[u8])
    ensures { AreBytes bytes.now }
{}

/// A function for the proof alone: the elements of a list of arrays of 8 bytes are blocks.
/// Otherwise a proof knows only their lengths. The list calls of ciphers have this clause for their
/// own lists.
pub fn are_blocks(blocks: &[[u8; 8]])
    ensures { All IsBlock blocks.now }
{
    are_bytes(blocks.as_flattened());
}

// Copies a list of blocks into one of the same length.
fn copy_blocks(input: &[[u8; 8]], output: &mut [[u8; 8]]) -> Result<(), NotEqualError>
    ensures blocks { All IsBlock input.now }
    ensures accepted { IsOk result ↔ (length input.now ≡ length output.old) }
    ensures ok { OnOk result (output.new ≡ input.now) }
    ensures err { OnErr result (output.new ≡ output.old) }
{
    are_blocks(input);
    if input.len() != output.len() {
        return Err(NotEqualError);
    }
    output.copy_from_slice(input);
    Ok(())
}

/// Encryption of blocks of 8 bytes. No call changes the cipher or the input.
pub trait BlockCipherEncrypt: BlockSizeUser {
    // The block that the cipher makes of a block.
    ghost encrypted: { Self → List ℕ → List ℕ };

    /// Encrypts a block of 8 bytes in place.
    fn encrypt_block(&self, block: &mut [u8; 8])
        ensures { block.new ≡ encrypted self.now block.old };

    /// Encrypts the block of 8 bytes `input` into `output`.
    final fn encrypt_block_b2b(&self, input: &[u8; 8], output: &mut [u8; 8])
        ensures { output.new ≡ encrypted self.now input.now }
    {
        *output = *input;
        self.encrypt_block(output);
    }

    /// Encrypts each block of 8 bytes in place, in order. An empty list stays empty. A cipher
    /// writes the call anew if it can treat some blocks side by side.
    fn encrypt_blocks(&self, blocks: &mut [[u8; 8]])
        ensures blocks { All IsBlock blocks.old }
        ensures encrypted { blocks.new ≡ map (encrypted self.now) blocks.old }
    {
        are_blocks(blocks);
        for block in blocks.iter_mut() {
            self.encrypt_block(block);
        }
    }

    /// Encrypts each block of `input` into the block at its place in `output`. If the two differ
    /// in length, the answer is `NotEqualError`, and `output` stays as it was.
    final fn encrypt_blocks_b2b(
        &self,
        input: &[[u8; 8]],
        output: &mut [[u8; 8]],
    ) -> Result<(), NotEqualError>
        ensures blocks { All IsBlock input.now }
        ensures accepted { IsOk result ↔ (length input.now ≡ length output.old) }
        ensures ok { OnOk result (output.new ≡ map (encrypted self.now) input.now) }
        ensures err { OnErr result (output.new ≡ output.old) }
    {
        copy_blocks(input, output)?;
        self.encrypt_blocks(output);
        Ok(())
    }
}

/// Decryption of blocks of 8 bytes. No call changes the cipher or the input.
pub trait BlockCipherDecrypt: BlockSizeUser {
    // The block that the cipher makes of a block.
    ghost decrypted: { Self → List ℕ → List ℕ };

    /// Decrypts a block of 8 bytes in place.
    fn decrypt_block(&self, block: &mut [u8; 8])
        ensures { block.new ≡ decrypted self.now block.old };

    /// Decrypts the block of 8 bytes `input` into `output`.
    final fn decrypt_block_b2b(&self, input: &[u8; 8], output: &mut [u8; 8])
        ensures { output.new ≡ decrypted self.now input.now }
    {
        *output = *input;
        self.decrypt_block(output);
    }

    /// Decrypts each block of 8 bytes in place, in order. An empty list stays empty. A cipher
    /// writes the call anew if it can treat some blocks side by side.
    fn decrypt_blocks(&self, blocks: &mut [[u8; 8]])
        ensures blocks { All IsBlock blocks.old }
        ensures decrypted { blocks.new ≡ map (decrypted self.now) blocks.old }
    {
        are_blocks(blocks);
        for block in blocks.iter_mut() {
            self.decrypt_block(block);
        }
    }

    /// Decrypts each block of `input` into the block at its place in `output`. If the two differ
    /// in length, the answer is `NotEqualError`, and `output` stays as it was.
    final fn decrypt_blocks_b2b(
        &self,
        input: &[[u8; 8]],
        output: &mut [[u8; 8]],
    ) -> Result<(), NotEqualError>
        ensures blocks { All IsBlock input.now }
        ensures accepted { IsOk result ↔ (length input.now ≡ length output.old) }
        ensures ok { OnOk result (output.new ≡ map (decrypted self.now) input.now) }
        ensures err { OnErr result (output.new ≡ output.old) }
    {
        copy_blocks(input, output)?;
        self.decrypt_blocks(output);
        Ok(())
    }
}

/// A block cipher: encryption and decryption take blocks to blocks and undo each other.
pub trait BlockCipher: BlockCipherEncrypt + BlockCipherDecrypt {
    // Each direction takes a block to a block.
    ghost encrypted_is_block: { (cipher : Self) (block : List ℕ) → IsBlock block
        → IsBlock (Self.encrypted cipher block) };

    ghost decrypted_is_block: { (cipher : Self) (block : List ℕ) → IsBlock block
        → IsBlock (Self.decrypted cipher block) };

    // Each direction undoes the other.
    ghost decrypts_encrypted: { (cipher : Self) (block : List ℕ) → IsBlock block
        → Self.decrypted cipher (Self.encrypted cipher block) ≡ block };

    ghost encrypts_decrypted: { (cipher : Self) (block : List ℕ) → IsBlock block
        → Self.encrypted cipher (Self.decrypted cipher block) ≡ block };
}

/// A block cipher whose key determines its output.
pub trait KeyedCipher: KeyInit + BlockCipher {
    // The block that a cipher made from the bytes of a key makes of a block, in each direction.
    ghost encryption: { List ℕ → List ℕ → List ℕ };

    ghost decryption: { List ℕ → List ℕ → List ℕ };

    // A cipher made from a key encrypts and decrypts as the key does.
    ghost encrypts_by_key: { (cipher : Self) (key block : List ℕ)
        → IsKey Self.KEY_SIZE key → Self.is_made_from cipher key
        → IsBlock block → Self.encrypted cipher block ≡ encryption key block };

    ghost decrypts_by_key: { (cipher : Self) (key block : List ℕ)
        → IsKey Self.KEY_SIZE key → Self.is_made_from cipher key
        → IsBlock block → Self.decrypted cipher block ≡ decryption key block };
}

/// A keyed cipher whose key is a relation of blocks: it relates each block to its encryption, and
/// to nothing else. `is_made_from` must say so of the key (`AreGraphsOf`): `new` proves it, and the
/// laws hand it on.
pub trait Relating: KeyedCipher {
    // The relation of a key: it takes a block to its encryption.
    ghost relation: { List ℕ → List ℕ → List ℕ → Type 0 };

    // The relation takes a block to what a cipher made from the key encrypts it to, and relates
    // nothing else.
    ghost encrypts_by_relation: { (cipher : Self) (key : List ℕ) → Self.is_made_from cipher key
        → IsGraphOf (Self.encrypted cipher) (relation key) };

    // What the cipher decrypts a block to, the relation takes to the block.
    ghost decrypts_by_relation: { (cipher : Self) (key : List ℕ) → Self.is_made_from cipher key
        → IsGraphOf (Self.decrypted cipher) (λ y x. relation key x y) };
}

/// A block cipher with the complementation property: if every bit of the key and of the block is
/// complemented, so is every bit of the result, in each direction.
pub trait Complementing: KeyedCipher {
    ghost encryption_complements: { (key block : List ℕ) → IsKey Self.KEY_SIZE key → IsBlock block
        → Self.encryption (complement key) (complement block)
        ≡ complement (Self.encryption key block) };

    ghost decryption_complements: { (key block : List ℕ) → IsKey Self.KEY_SIZE key → IsBlock block
        → Self.decryption (complement key) (complement block)
        ≡ complement (Self.decryption key block) };
}
