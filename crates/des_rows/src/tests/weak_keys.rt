//! The listed keys in their places, and those that are partners. What the weak key test answers is
//! tested from C (`bindings/c/tests/keys.c`).

ghost use Rattle.std.specs.Prelude.{◌<◌};

use des::Des;
use des::cipher::{BlockCipherEncrypt, KeyInit};
use des::weak_key::{WEAK_KEYS, is_partner};

// The listed key of this place, as a word.
fn key_at(place: usize) -> u64
    requires { place < 64 }
{
    u64::from_be_bytes(WEAK_KEYS[place])
}

// By place: the first of the 4 weak keys of NBS Special Publication 500-20, the first of the 12
// semi-weak ones, and the keys after them that the list of the Rust crate `des` begins and ends
// with.
#[test]
fn lists_keys_in_their_places(rt: HostRuntime) {
    assert!(rt; key_at(0) == 0x0101010101010101 && key_at(4) == 0x011f011f010e010e);
    assert!(rt; key_at(16) == 0x01011f1f01010e0e && key_at(63) == 0xfefee0e0fefef1f1);
}

// Whether the second key of a pair gives back what the first enciphers.
fn gives_back(first: &[u8; 8], second: &[u8; 8]) -> bool {
    let plaintext = [*b"Now is t", *b"he time ", *b"for all "];
    let mut blocks = plaintext;
    Des::new(first).encrypt_blocks(&mut blocks);
    Des::new(second).encrypt_blocks(&mut blocks);
    blocks == plaintext
}

// The place of the partner of the listed key of this place: the 4 weak keys are partners of
// themselves, and the 12 semi-weak ones after them of each other, in 6 pairs of neighbours. So they
// stand in NBS Special Publication 500-20 and in NIST Special Publication 800-67, section 3.3.2.
fn partner_of(place: usize) -> Option<usize> {
    match place {
        0..=3 => Some(place),
        4..=15 => Some(place ^ 1),
        _ => None,
    }
}

// Whether the listed keys of two places are told as partners, and give blocks back, if the
// publications say so, and else are not told.
fn are_as_published(place: usize, other: usize) -> bool
    requires { (place < 64) × (other < 64) }
{
    let (first, second) = (&WEAK_KEYS[place], &WEAK_KEYS[other]);
    if partner_of(place) == Some(other) {
        is_partner(first, second) && gives_back(first, second)
    } else {
        !is_partner(first, second)
    }
}

// Of the 4,096 pairs of listed keys, 16.
#[test]
fn partners_are_the_published_pairs(rt: HostRuntime) {
    for place in 0..64usize {
        for other in 0..64usize {
            assert!(rt; are_as_published(place, other));
        }
    }
}
