//! The two keys that a protection key of key blocks makes (ANSI X9.143, ASC X9 TR-31): one
//! encrypts, the other authenticates.

ghost use Rattle.std.specs.Prelude.{◌≡◌, ◌⊎◌, ◌<◌, ◌++◌, length};
ghost use Rattle.des_key_blocks.specs.ProtectionKeys.{three_parts as three_parts_of, variant as variant_of, derivation_block as derivation_block_of};
ghost use Rattle.des_key_blocks.specs.ProtectionKeys.{derived_part as derived_part_of, derived_key as derived_key_of, encryption_key, mac_key};

use crate::key_block_header::Version;
use des_fast::no_tables::TdesEde3;
use des_mac::cmac::Cmac;
use des_mac::mac::Mac;

// The keys of a protection key, each of three parts.
#[derive(Clone, Copy)]
pub(crate) struct ProtectionKeys {
    pub(crate) encryption: [u8; 24],
    pub(crate) mac: [u8; 24],
}

// A key of two parts or three as one of three: the third of two is the first.
fn three_parts(key: &[u8]) -> [u8; 24]
    requires { (length key.now ≡ 16) ⊎ (length key.now ≡ 24) }
    ensures { result ≡ three_parts_of key.now }
{
    let mut parts = [0; 24];
    let (front, rest) = parts.split_at_mut(key.len());
    front.copy_from_slice(key);
    rest.copy_from_slice(&key[..24 - key.len()]);
    parts
}

// The key with a byte xored into each of its bytes.
fn variant(byte: u8, key: &[u8; 24]) -> [u8; 24]
    ensures { result ≡ variant_of byte key.now }
{
    let mut variant = *key;
    for part in &mut variant {
        *part ^= byte;
    }
    variant
}

// The input of a derivation.
fn derivation_block(size: usize, usage: u8, counter: u8) -> [u8; 8]
    requires { size < 32 }
    ensures { result ≡ derivation_block_of size usage counter }
{
    let algorithm = if size == 24 { 1 } else { 0 };
    [counter, 0, usage, 0, 0, algorithm, 0, 8 * size as u8]
}

// Eight bytes of the key that is derived from a protection key.
fn derived_part(key: &[u8], usage: u8, counter: u8) -> [u8; 8]
    requires { (length key.now ≡ 16) ⊎ (length key.now ≡ 24) }
    ensures { result ≡ derived_part_of usage key.now counter }
{
    let block = derivation_block(key.len(), usage, counter);
    Cmac::<TdesEde3>::mac(&three_parts(key), &block).unwrap()
}

// Three parts, one after the other.
fn joined(first: &[u8; 8], second: &[u8; 8], third: &[u8; 8]) -> [u8; 24]
    ensures { result ≡ first.now ++ second.now ++ third.now }
{
    let mut parts = [0; 24];
    let (front, rest) = parts.split_at_mut(8);
    front.copy_from_slice(first);
    let (middle, back) = rest.split_at_mut(8);
    middle.copy_from_slice(second);
    back.copy_from_slice(third);
    parts
}

// The third part of the key that is derived: of two parts it is the first.
fn third_part(key: &[u8], usage: u8, first: &[u8; 8]) -> [u8; 8]
    requires { (length key.now ≡ 16) ⊎ (length key.now ≡ 24) }
    ensures two { length key.now ≡ 16 → result ≡ first.now }
    ensures three { length key.now ≡ 24 → result ≡ derived_part_of usage key.now 3 }
{
    if key.len() == 24 {
        derived_part(key, usage, 3)
    } else {
        *first
    }
}

// The key of three parts that is derived from a protection key.
fn derived_key(key: &[u8], usage: u8) -> [u8; 24]
    requires { (length key.now ≡ 16) ⊎ (length key.now ≡ 24) }
    ensures { result ≡ three_parts_of (derived_key_of usage key.now) }
{
    let first = derived_part(key, usage, 1);
    let second = derived_part(key, usage, 2);
    joined(&first, &second, &third_part(key, usage, &first))
}

// The keys that a protection key of 16 or 24 bytes makes in blocks of a version.
pub(crate) fn protection_keys(version: Version, key: &[u8]) -> ProtectionKeys
    requires { (length key.now ≡ 16) ⊎ (length key.now ≡ 24) }
    ensures encryption { result.encryption ≡ encryption_key version key.now }
    ensures mac { result.mac ≡ mac_key version key.now }
{
    match version {
        Version::B => ProtectionKeys {
            encryption: derived_key(key, 0),
            mac: derived_key(key, 1),
        },
        Version::A | Version::C => {
            let whole = three_parts(key);
            ProtectionKeys {
                encryption: variant(0x45, &whole),
                mac: variant(0x4d, &whole),
            }
        }
    }
}
