//! The chain of a message that comes in pieces, on which the MACs stand.

ghost use Rattle.std.specs.Prelude.{◌≡◌, ◌≤◌, ◌<◌, ◌+◌, ℕ, List, [], ◌++◌, length, take, slice_index_or, ◌↔◌, IsOk, IfOk};
ghost use Rattle.des.specs.Blocks.{IsKey};
ghost use Rattle.des.specs.Cbc.{xor_blocks};
ghost use Rattle.des_mac.specs.Padding.{AreWholeBlocks};
ghost use Rattle.des_mac.specs.CbcMac.{block_after, chain_after, cbc_mac};
ghost use Rattle.des_mac.specs.Cmac.{masked};

use crate::by_key::{are_key_bytes, encrypt};
use crate::progress::Progress;
use des::cbc::xor;
use des::cipher::{InvalidLength, KeyedCipher};

// The chain goes on with a block: the encryption of their xor.
fn chain_block<C: KeyedCipher>(cipher: &C, chain: &mut [u8; 8], block: &[u8; 8])
    ensures { (key : List ℕ) → IsKey C.KEY_SIZE key → C.is_made_from cipher.now key
        → chain.new ≡ C.encryption key (xor_blocks block.now chain.old) }
{
    let mut answer = *block;
    xor(&mut answer, chain);
    encrypt(cipher, &mut answer);
    *chain = answer;
}

// The chain of the first n blocks of a message goes on with the blocks that come after them.
fn chain_blocks<C: KeyedCipher>(cipher: &C, chain: &mut [u8; 8], blocks: &[[u8; 8]])
    ensures { (key : List ℕ) → IsKey C.KEY_SIZE key → C.is_made_from cipher.now key
        → (m : List ℕ) (n : ℕ)
        → ((i : ℕ) → i < length blocks.now
        → slice_index_or blocks.now i [] ≡ block_after m (n + i))
        → chain.old ≡ chain_after (C.encryption key) m n
        → chain.new ≡ chain_after (C.encryption key) m (n + length blocks.now) }
{
    for block in blocks {
        chain_block(cipher, chain, block);
    }
}

/// A message in pieces, under a cipher. The last block is held back, also if it is whole, since
/// what becomes of it is not known before the message ends.
#[derive(Drop)]
pub struct Chaining<C> {
    pub(crate) cipher: C,
    pub(crate) chain: [u8; 8],
    pub(crate) pending: [u8; 8],
    pub(crate) count: usize,
    ghost fits: { count ≤ 8 },
}

impl<C: KeyedCipher + Drop> Chaining<C> {
    ghost use Rattle.des_mac.specs.Holds.{Holds};
    ghost use Rattle.des_mac.specs.IsProgress.{HoldsOneBlock, IsProgressOf};

    // The message of no bytes under a cipher.
    fn of_cipher(cipher: C) -> Chaining<C>
        ensures { (key : List ℕ) → IsKey C.KEY_SIZE key → C.is_made_from cipher key
            → Holds C.KEY_SIZE C.is_made_from C.encryption result key [] }
    {
        Chaining {
            cipher,
            chain: [0; 8],
            pending: [0; 8],
            count: 0,
        }
    }

    // The message of no bytes under a key.
    pub(crate) fn new(key: &C::Key) -> Chaining<C>
        ensures { Holds C.KEY_SIZE C.is_made_from C.encryption result (C.Key.bytes_of key.now) [] }
    {
        are_key_bytes(key);
        Chaining::of_cipher(C::new(key))
    }

    // The message of no bytes under the key of these bytes, or `InvalidLength`.
    pub(crate) fn new_from_slice(key: &[u8]) -> Result<Chaining<C>, InvalidLength>
        ensures accepted { IsOk result ↔ (length key.now ≡ C.KEY_SIZE) }
        ensures made { IfOk result (λ state.
            Holds C.KEY_SIZE C.is_made_from C.encryption state key.now []) }
    {
        Ok(Chaining::of_cipher(C::new_from_slice(key)?))
    }

    // The message that has come so far, under a cipher.
    pub(crate) fn resume(cipher: C, progress: &Progress) -> Chaining<C>
        requires { HoldsOneBlock progress.now }
        ensures { (key m : List ℕ) → IsKey C.KEY_SIZE key → C.is_made_from cipher key
            → IsProgressOf (C.encryption key) progress.now m
            → Holds C.KEY_SIZE C.is_made_from C.encryption result key m }
    {
        Chaining {
            cipher,
            chain: progress.chain,
            pending: progress.pending,
            count: progress.count,
        }
    }

    // How far the message has come.
    pub(crate) fn progress(&self) -> Progress
        ensures { (key m : List ℕ) → Holds C.KEY_SIZE C.is_made_from C.encryption self.now key m
            → IsProgressOf (C.encryption key) result m }
    {
        Progress {
            chain: self.chain,
            pending: self.pending,
            count: self.count,
        }
    }

    // Appends to the pending bytes others that fit into their block.
    fn hold(&mut self, bytes: &[u8])
        requires { self.old.count + length bytes.now ≤ 8 }
        ensures cipher { self.new.cipher ≡ self.old.cipher }
        ensures chain { self.new.chain ≡ self.old.chain }
        ensures width { length self.new.pending ≡ length self.old.pending }
        ensures count { self.new.count ≡ self.old.count + length bytes.now }
        ensures pending { take self.new.count self.new.pending
            ≡ take self.old.count self.old.pending ++ bytes.now }
    {
        let end = self.count + bytes.len();
        self.pending[self.count..end].copy_from_slice(bytes);
        self.count = end;
    }

    // Adds bytes to the message.
    pub(crate) fn update(&mut self, bytes: &[u8])
        ensures cipher { self.new.cipher ≡ self.old.cipher }
        ensures holds { (key m : List ℕ)
            → Holds C.KEY_SIZE C.is_made_from C.encryption self.old key m
            → Holds C.KEY_SIZE C.is_made_from C.encryption self.new key (m ++ bytes.now) }
    {
        let space = 8 - self.count;
        if bytes.len() <= space {
            self.hold(bytes);
            return;
        }
        let (head, rest) = bytes.split_at(space);
        self.hold(head);
        chain_block(&self.cipher, &mut self.chain, &self.pending);
        let (whole, last) = rest.split_at((rest.len() - 1) / 8 * 8);
        chain_blocks(&self.cipher, &mut self.chain, whole.as_chunks::<8>().0);
        self.count = 0;
        self.hold(last);
    }

    // The CBC-MAC tag of the message with its padding. The state is then no longer that of a
    // message.
    pub(crate) fn close(&mut self, padding: &[u8]) -> [u8; 8]
        ensures cipher { self.new.cipher ≡ self.old.cipher }
        ensures tag { (key m : List ℕ)
            → Holds C.KEY_SIZE C.is_made_from C.encryption self.old key m
            → AreWholeBlocks (length (m ++ padding.now))
            → result ≡ cbc_mac (C.encryption key) (m ++ padding.now) }
    {
        self.update(padding);
        chain_block(&self.cipher, &mut self.chain, &self.pending);
        self.chain
    }

    // The tag of CBC-MAC of a message of whole blocks, the last one xored with the subkey; the
    // state then stands for none.
    pub(crate) fn close_masked(&mut self, subkey: &[u8; 8]) -> [u8; 8]
        ensures { (key m : List ℕ) → Holds C.KEY_SIZE C.is_made_from C.encryption self.old key m
            → AreWholeBlocks (length m)
            → result ≡ cbc_mac (C.encryption key) (masked subkey.now m) }
    {
        xor(&mut self.pending, subkey);
        chain_block(&self.cipher, &mut self.chain, &self.pending);
        self.chain
    }
}
