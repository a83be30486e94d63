//! A session identifier, and its text.
ghost use Rattle.std.specs.Prelude.{◌≡◌, ◌↔◌, ◌<◌, ℕ, List, length, map, All, Contains, Some, IfSome, IsTrue, is_some};
ghost use Rattle.std.specs.Option.{SomeIff};
ghost use Rattle.session_id.specs.Identifiers.{alphabet, digit_of, group, is_text, number, text_of, IsId, IsTextOf};

use crate::digits::{number_of_bytes, number_of_digits, write_digits};
use std::marker::Model;

const ALPHABET: &[u8; 32] = b"abcdefghijklmnopqrstuvwxyz012345";

/// A session identifier of 120 bits.
#[derive(Clone, Copy, Debug, PartialEq, Eq)]
pub struct Id {
    bytes: [u8; 15],
}

impl Model for Id {
    ghost use Rattle.std.specs.Prelude.{ℕ, List};

    ghost Value = { List ℕ };

    ghost view = { λ id. id.bytes };

    ghost inverse = { λ bytes. record { bytes = bytes } };
}

impl Id {
    /// The identifier of 15 bytes, which the caller draws at random.
    pub fn from_random(random: [u8; 15]) -> Id
        ensures { result ≡ random }
    {
        Id { bytes: random }
    }

    /// The identifier that the text writes: `None` exactly where the text is not 24 characters from
    /// `a` to `z` and `0` to `5`.
    pub fn read(text: &[u8]) -> Option<Id>
        ensures found { is_some result ≡ is_text text.now }
        ensures value { IfSome result (λ id. IsTextOf id text.now) }
        ensures exact { (id : List ℕ) → IsId id → ((result ≡ Some id) ↔ (text_of id ≡ text.now)) }
    {
        let digits = read_digits(text)?;
        let mut bytes = [0; 15];
        write_digits(number_of_digits(&digits, 32), 256, &mut bytes);
        Some(Id { bytes })
    }

    /// The 15 bytes.
    pub fn bytes(&self) -> [u8; 15]
        ensures { result ≡ self.now }
    {
        self.bytes
    }

    /// The 24 characters.
    pub fn text(&self) -> [u8; 24]
        ensures value { result ≡ text_of self.now }
        ensures written { IsTextOf self.now result }
    {
        let mut digits = [0; 24];
        write_digits(number_of_bytes(&self.bytes), 32, &mut digits);
        let mut text = [0; 24];
        for i in 0..24 {
            text[i] = ALPHABET[digits[i] as usize];
        }
        text
    }
}

/// A law, with nothing to run: identifiers and the texts that read are in one-to-one
/// correspondence, those texts are the ones of 24 characters of the alphabet, and each five bytes
/// are written by eight characters of their own, a number of 40 bits.
pub fn correspondence()
    ensures characters { (text : List ℕ)
        → (IsTrue (is_text text) ↔ ((length text ≡ 24) × All (Contains alphabet) text)) }
    ensures text_of_each { (id : List ℕ) → IsId id → IsTextOf id (text_of id) }
    ensures id_of_each { (text : List ℕ) → IsTrue (is_text text)
        → (id : List ℕ) × IsTextOf id text }
    ensures one_text { (id text : List ℕ) → IsTextOf id text → text ≡ text_of id }
    ensures one_id { (a b text : List ℕ) → IsTextOf a text → IsTextOf b text → a ≡ b }
    ensures groups { (id text : List ℕ) → IsTextOf id text → (k : ℕ) → k < 3
        → number 32 (map digit_of (group 8 k text)) ≡ number 256 (group 5 k id) }
{}

// The digits that the text writes.
fn read_digits(text: &[u8]) -> Option<[u8; 24]>
    ensures found { is_some result ≡ is_text text.now }
    ensures value { IfSome result (λ digits. digits ≡ map digit_of text.now) }
{
    if text.len() != 24 {
        return None;
    }
    let mut digits = [0; 24];
    for i in 0..24 {
        digits[i] = digit(text[i])?;
    }
    Some(digits)
}

// The digit that the character stands for.
fn digit(character: u8) -> Option<u8>
    ensures { SomeIff result (digit_of character < 32) (digit_of character) }
{
    match character {
        b'a'..=b'z' => Some(character - b'a'),
        b'0'..=b'5' => Some(character - b'0' + 26),
        _ => None,
    }
}
