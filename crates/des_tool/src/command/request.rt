//! What the arguments ask for: the shapes that they have, and the names in them.

ghost use Rattle.std.specs.Prelude.{◌≡◌};
ghost use Rattle.std.specs.Option.{option_map};
ghost use Rattle.des_tool.specs.Request.{request, request_of, cipher_of, cbc_cipher_of, direction_of, texts};

// A block cipher that the program knows.
#[derive(Clone, Copy)]
pub(super) enum Cipher {
    Des,
    Ede3,
    Eee3,
    Ede2,
    Eee2,
}

// A block cipher in CBC mode that the program knows.
#[derive(Clone, Copy)]
pub(super) enum CbcCipher {
    DesCbc,
    Ede3Cbc,
}

// Whether blocks are enciphered or deciphered.
#[derive(Clone, Copy)]
pub(super) enum Direction {
    Encrypt,
    Decrypt,
}

// What the arguments ask for, with those that hold digits.
pub(super) enum Command<'a> {
    Blocks {
        cipher: Cipher,
        direction: Direction,
        key: &'a str,
        blocks: &'a str,
    },
    Cbc {
        cipher: CbcCipher,
        direction: Direction,
        key: &'a str,
        vector: &'a str,
        blocks: &'a str,
    },
    Weak {
        key: &'a str,
    },
}

fn parse_cipher(argument: &str) -> Option<Cipher>
    ensures { result ≡ cipher_of argument.now }
{
    match argument {
        "des" => Some(Cipher::Des),
        "ede3" => Some(Cipher::Ede3),
        "eee3" => Some(Cipher::Eee3),
        "ede2" => Some(Cipher::Ede2),
        "eee2" => Some(Cipher::Eee2),
        _ => None,
    }
}

fn parse_cbc_cipher(argument: &str) -> Option<CbcCipher>
    ensures { result ≡ cbc_cipher_of argument.now }
{
    match argument {
        "des-cbc" => Some(CbcCipher::DesCbc),
        "ede3-cbc" => Some(CbcCipher::Ede3Cbc),
        _ => None,
    }
}

fn parse_direction(argument: &str) -> Option<Direction>
    ensures { result ≡ direction_of argument.now }
{
    match argument {
        "encrypt" => Some(Direction::Encrypt),
        "decrypt" => Some(Direction::Decrypt),
        _ => None,
    }
}

pub(super) fn parse<'a>(arguments: &[&'a str]) -> Option<Command<'a>>
    ensures { option_map request result ≡ request_of (texts arguments.now) }
{
    match *arguments {
        [test, key] if test == "weak" => Some(Command::Weak { key }),
        [cipher, direction, key, blocks] => Some(Command::Blocks {
            cipher: parse_cipher(cipher)?,
            direction: parse_direction(direction)?,
            key,
            blocks,
        }),
        [cipher, direction, key, vector, blocks] => Some(Command::Cbc {
            cipher: parse_cbc_cipher(cipher)?,
            direction: parse_direction(direction)?,
            key,
            vector,
            blocks,
        }),
        _ => None,
    }
}
