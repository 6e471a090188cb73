//! Key data of key blocks, encrypted and authenticated after a header (ANSI X9.143, ASC X9 TR-31).

ghost use Rattle.std.specs.Prelude.{◌≡◌, ◌↔◌, ◌%◌, ◌≤◌, ◌++◌, length, take, IsOk};
ghost use Rattle.des.specs.Cbc.{Cbc};
ghost use Rattle.des.specs.TripleCiphers.{ede3_encryption};
ghost use Rattle.des_mac.specs.CbcMac.{cbc_mac};
ghost use Rattle.des_mac.specs.Cmac.{cmac};
ghost use Rattle.des_key_blocks.specs.KeyBlocks.{joined, tag_of, mac_size as mac_size_of, vector_of};

use crate::key_block_header::Version;
use crate::protection_keys::ProtectionKeys;
use des::cbc;
use des::cipher::{KeyBytes, KeyedCipher};
use des_fast::no_tables::TdesEde3;
use des_mac::cbc_mac::CbcMac;
use des_mac::cmac::Cmac;
use des_mac::mac::{Mac, MacError, verify_truncated_left};
use des_mac::padding::Method1;

// Encrypts blocks in place under a key, by CBC from a vector.
fn encrypt_cbc<C: KeyedCipher + Drop>(key: &C::Key, vector: &[u8; 8], blocks: &mut [[u8; 8]])
    ensures { Cbc (C.encryption (C.Key.bytes_of key.now)) vector.now blocks.old blocks.new }
{
    key.as_bytes();
    cbc::encrypt(&C::new(key), vector, blocks);
}

// Decrypts blocks in place that were so encrypted.
fn decrypt_cbc<C: KeyedCipher + Drop>(key: &C::Key, vector: &[u8; 8], blocks: &mut [[u8; 8]])
    ensures { Cbc (C.encryption (C.Key.bytes_of key.now)) vector.now blocks.new blocks.old }
{
    key.as_bytes();
    cbc::decrypt(&C::new(key), vector, blocks);
}

// The tag of a message in two pieces.
fn tag_of_pieces<M: Mac + Drop>(key: &[u8], front: &[u8], back: &[u8]) -> [u8; 8]
    requires { length key.now ≡ M.key_size }
    ensures { result ≡ M.tag_of key.now (front.now ++ back.now) }
{
    let mut state = M::new_from_slice(key).unwrap();
    state.update(front);
    state.update(back);
    state.finalize()
}

// The tag of version B, of a header and key data in clear.
fn clear_tag(key: &[u8; 24], header: &[u8], blocks: &[[u8; 8]]) -> [u8; 8]
    ensures { result ≡ cmac (ede3_encryption key.now) (header.now ++ joined blocks.now) }
{
    tag_of_pieces::<Cmac<TdesEde3>>(key, header, blocks.as_flattened())
}

// The tag of versions A and C, of a header and encrypted key data.
fn encrypted_tag(key: &[u8; 24], header: &[u8], blocks: &[[u8; 8]]) -> [u8; 8]
    requires some { 8 ≤ length header.now }
    requires whole { length header.now % 8 ≡ 0 }
    ensures { result ≡ cbc_mac (ede3_encryption key.now) (header.now ++ joined blocks.now) }
{
    tag_of_pieces::<CbcMac<TdesEde3, Method1>>(key, header, blocks.as_flattened())
}

// The first eight characters of a header.
fn first_eight(header: &[u8]) -> [u8; 8]
    requires { 8 ≤ length header.now }
    ensures { result ≡ take 8 header.now }
{
    let mut vector = [0; 8];
    vector.copy_from_slice(&header[..8]);
    vector
}

// The size of a version's MAC in bytes.
pub(crate) fn mac_size(version: Version) -> usize
    ensures { result ≡ mac_size_of version }
{
    match version {
        Version::A | Version::C => 4,
        Version::B => 8,
    }
}

// Encrypts key data in place, and returns the tag of which the front is the MAC.
pub(crate) fn seal(
    version: Version,
    keys: &ProtectionKeys,
    header: &[u8],
    blocks: &mut [[u8; 8]],
) -> [u8; 8]
    requires some { 8 ≤ length header.now }
    requires whole { length header.now % 8 ≡ 0 }
    ensures tag { result
        ≡ tag_of version keys.now.mac header.now (joined blocks.old) (joined blocks.new) }
    ensures chained { Cbc (ede3_encryption keys.now.encryption)
        (vector_of version header.now result) blocks.old blocks.new }
{
    match version {
        Version::B => {
            let tag = clear_tag(&keys.mac, header, blocks);
            encrypt_cbc::<TdesEde3>(&keys.encryption, &tag, blocks);
            tag
        }
        Version::A | Version::C => {
            encrypt_cbc::<TdesEde3>(&keys.encryption, &first_eight(header), blocks);
            encrypted_tag(&keys.mac, header, blocks)
        }
    }
}

// Decrypts key data in place, and says whether the MAC is theirs.
pub(crate) fn unseal(
    version: Version,
    keys: &ProtectionKeys,
    header: &[u8],
    mac: &[u8],
    blocks: &mut [[u8; 8]],
) -> Result<(), MacError>
    requires some { 8 ≤ length header.now }
    requires whole { length header.now % 8 ≡ 0 }
    requires mac { length mac.now ≡ mac_size_of version }
    ensures chained { Cbc (ede3_encryption keys.now.encryption)
        (vector_of version header.now mac.now) blocks.new blocks.old }
    ensures mac { IsOk result ↔ (mac.now ≡ take (mac_size_of version)
        (tag_of version keys.now.mac header.now (joined blocks.new) (joined blocks.old))) }
{
    let tag = match version {
        Version::B => {
            decrypt_cbc::<TdesEde3>(&keys.encryption, &first_eight(mac), blocks);
            clear_tag(&keys.mac, header, blocks)
        }
        Version::A | Version::C => {
            let tag = encrypted_tag(&keys.mac, header, blocks);
            decrypt_cbc::<TdesEde3>(&keys.encryption, &first_eight(header), blocks);
            tag
        }
    };
    verify_truncated_left(mac, &tag)
}
