//! A password as a BMPString with its zero at the end (RFC 7292, appendix B.1), unit by unit.

ghost use Rattle.std.specs.Prelude.{◌≡◌, ◌≤◌, ◌<◌, ◌+◌, ◌*◌, ◌^◌, ◌∷◌, ◌++◌, ℕ, [], suc, length, MatchOption, None};
ghost use Rattle.std.specs.Char.Escape.{encode_utf16};
ghost use Rattle.std.specs.List.{flat_map};
ghost use Rattle.std.specs.Str.{chars};
ghost use Rattle.des_passwords.specs.BmpStrings.{characters_left, units_left, second_of, all_units};
ghost use Rattle.des_passwords.specs.Pkcs12.{characters_of, copies, units_of};

use std::str;

// The first character of a text, and those after it.
fn split_first(text: &str) -> Option<(char, &str)>
    ensures { MatchOption result (chars text.now ≡ [])
        (λ x. chars text.now ≡ x.0 ∷ chars x.1.now) }
{
    let mut chars = text.chars();
    match chars.next() {
        Some(first) => Some((first, chars.as_str())),
        None => None,
    }
}

// The number of units of a text in UTF-16.
fn utf16_count(text: &str) -> usize
    ensures count { result ≡ length (flat_map encode_utf16 (chars text.now)) }
    ensures bound { result < 2 ^ 63 }
{
    let mut count = 0;
    let mut rest = text;
    'characters: while let Some((first, after)) = split_first(rest) {
        count += first.len_utf16();
        rest = after;
    }
    count
}

// The number of units of bytes, of which each is a character.
fn byte_count(bytes: &[u8]) -> usize
    ensures count { result ≡ length (flat_map encode_utf16 bytes.now) }
    ensures bound { result < 2 ^ 63 }
{
    bytes.len()
}

// The characters of a password that are still to come.
#[derive(Clone, Copy)]
enum Characters<'a> {
    Utf8(&'a str),
    // One for each byte.
    Bytes(&'a [u8]),
}

impl<'a> Characters<'a> {
    fn new(password: &'a [u8]) -> Characters<'a>
        ensures { characters_left result ≡ characters_of password.now }
    {
        match str::from_utf8(password) {
            Ok(text) => Characters::Utf8(text),
            Err(_) => Characters::Bytes(password),
        }
    }

    // The first character, and those after it.
    #[tactic(auto, unfolding(crate::specs::BmpStrings::characters_left))]
    fn split_first(self) -> Option<(char, Characters<'a>)>
        ensures { MatchOption result (characters_left self.entry ≡ [])
            (λ x. characters_left self.entry ≡ x.0 ∷ characters_left x.1) }
    {
        match self {
            Characters::Utf8(text) => match split_first(text) {
                Some((first, rest)) => Some((first, Characters::Utf8(rest))),
                None => None,
            },
            Characters::Bytes(bytes) => match bytes.split_first() {
                Some((first, rest)) => Some((*first as char, Characters::Bytes(rest))),
                None => None,
            },
        }
    }
}

// The first unit of a character, and its second if it has one.
fn units_of_character(character: char) -> (u16, Option<u16>)
    ensures { encode_utf16 character ≡ result.0 ∷ second_of result.1 }
{
    let mut buffer = [0; 2];
    let units = character.encode_utf16(&mut buffer);
    (units[0], units.get(1).copied())
}

// Copies of the units of a password and its zero, one after another.
#[derive(Drop)]
pub(crate) struct Units<'a> {
    all: Characters<'a>,
    rest: Characters<'a>,
    second: Option<u16>,
}

impl<'a> Units<'a> {
    pub(crate) fn new(password: &'a [u8]) -> Units<'a>
        ensures all { all_units result ≡ units_of (characters_of password.now) }
        ensures left { units_left result ≡ units_of (characters_of password.now) }
    {
        let all = Characters::new(password);
        Units {
            all,
            rest: all,
            second: None,
        }
    }

    // The number of units of a copy.
    pub(crate) fn count(&self) -> usize
        ensures count { result ≡ length (all_units self.now) }
        ensures bound { result ≤ 2 ^ 63 }
    {
        match self.all {
            Characters::Utf8(text) => utf16_count(text) + 1,
            Characters::Bytes(bytes) => byte_count(bytes) + 1,
        }
    }

    // The first unit of the next character, or the zero at the end.
    fn next_of_character(&mut self) -> u16
        requires { self.old.second ≡ None }
        ensures next { (n : ℕ) → copies (all_units self.old) (units_left self.old) (suc n)
            ≡ result ∷ copies (all_units self.old) (units_left self.new) n }
        ensures all { all_units self.new ≡ all_units self.old }
    {
        match self.rest.split_first() {
            Some((first, rest)) => {
                let (unit, second) = units_of_character(first);
                self.rest = rest;
                self.second = second;
                unit
            }
            None => {
                self.rest = self.all;
                0
            }
        }
    }

    pub(crate) fn next(&mut self) -> u16
        ensures next { (n : ℕ) → copies (all_units self.old) (units_left self.old) (suc n)
            ≡ result ∷ copies (all_units self.old) (units_left self.new) n }
        ensures all { all_units self.new ≡ all_units self.old }
    {
        match self.second {
            Some(unit) => {
                self.second = None;
                unit
            }
            None => self.next_of_character(),
        }
    }
}
