//! What is known of each of the five ciphers, and the keys and blocks that it is known of.

ghost use Rattle.std.specs.Prelude.{◌≤◌};

// The blocks of groups of sixteen hexadecimal digits, with a space between groups.
pub fn blocks<const N: usize>(digits: &str) -> [[u8; 8]; N] {
    let mut blocks = [[0; 8]; N];
    for (block, group) in blocks.iter_mut().zip(digits.split(' ')) {
        *block = u64::from_str_radix(group, 16).unwrap_or(0).to_be_bytes();
    }
    blocks
}

// The parts of a key.
pub type KeyParts = [[u8; 8]; 3];

// NIST Special Publication 800-67, appendix B: the parts of a key, and "The qufck brown fox jump".
pub const PARTS: KeyParts = [
    *b"\x01\x23\x45\x67\x89\xab\xcd\xef",
    *b"\x23\x45\x67\x89\xab\xcd\xef\x01",
    *b"\x45\x67\x89\xab\xcd\xef\x01\x23",
];

pub const PLAINTEXT: [[u8; 8]; 3] = [*b"The qufc", *b"k brown ", *b"fox jump"];

// The vector of FIPS 81, appendix C.
pub const IV: [u8; 8] = *b"\x12\x34\x56\x78\x90\xab\xcd\xef";

// What is known of a cipher.
#[derive(Clone, Copy)]
pub struct Known {
    // The name of its type.
    pub name: &'static str,
    // How many parts of 8 bytes its key has.
    pub parts: usize,
    // Of the first parts of `PARTS`: what `PLAINTEXT` becomes, and what it becomes by CBC.
    pub ciphertext: &'static str,
    pub encrypted_by_cbc: &'static str,
    ghost three: { parts ≤ 3 },
}

impl Known {
    // The key of the first of these parts.
    pub fn key<'a>(&self, parts: &'a KeyParts) -> &'a [u8] {
        parts[..self.parts].as_flattened()
    }
}

// The ciphertext of `TdesEde3` stands in the publication; all else is OpenSSL's: `openssl enc
// -provider legacy -provider default -des-ecb -nopad -K KEY`, and `-des-cbc -iv 1234567890abcdef`
// for CBC; and `-des-ede3-ecb`, `-des-ede-ecb` and their `-cbc` with the parts one after another.
// Those of the EEE forms are three runs of des-ecb, and for CBC the xor with the block before.
pub const DES: Known = Known {
    name: "Des",
    parts: 1,
    ciphertext: "a28e91724c4bba31 167e47ec24f71d63 2c1a917234425365",
    encrypted_by_cbc: "6126136e77f27f53 b132c523d7e8ea5f 14b9dbb57f7788b3",
};

pub const EDE3: Known = Known {
    name: "TdesEde3",
    parts: 3,
    ciphertext: "a826fd8ce53b855f cce21c8112256fe6 68d5c05dd9b6b900",
    encrypted_by_cbc: "38413d4ba2325cf1 141f707471ac2ced 57db530f0123b5ac",
};

pub const EEE3: Known = Known {
    name: "TdesEee3",
    parts: 3,
    ciphertext: "ce2719ff408a7afa c3f4683ad32c6b5b ec6ad3d6da9dc9b3",
    encrypted_by_cbc: "632da124f91e6d60 031e46c3a2b02765 dd5d236d88ea9683",
};

pub const EDE2: Known = Known {
    name: "TdesEde2",
    parts: 2,
    ciphertext: "c44862f70cf2fbdc 9077d0909fa91b88 4cabd61fc58e0cbb",
    encrypted_by_cbc: "b0ed7d5e6849dc73 cfb0c1915e64897f 8182f143185f6cf1",
};

pub const EEE2: Known = Known {
    name: "TdesEee2",
    parts: 2,
    ciphertext: "500013533151e90c 7314612fb856088e 28b61bd250fe2d39",
    encrypted_by_cbc: "074fa8511aec9e79 a04d035b4974da81 dca40f0e1e9610b6",
};
