//! Bytes written in hexadecimal.
ghost use Rattle.std.specs.Prelude.{◌≡◌, ◌↔◌, length, IsSome};
ghost use Rattle.std.specs.List.{AllPass};
ghost use Rattle.hex.specs.Hex.{is_hex_digit};
ghost use Rattle.session_id.specs.Hexadecimal.{hex_bytes};

use hex::FromHex;

/// The 15 bytes that 30 hexadecimal digits write, in lower, upper or mixed case: `None` exactly
/// where the text is not 30 such digits.
pub fn read_hex(text: &[u8]) -> Option<[u8; 15]>
    ensures value { result ≡ hex_bytes 15 text.now }
    ensures found { IsSome result ↔ ((length text.now ≡ 30) × AllPass is_hex_digit text.now) }
{
    <[u8; 15] as FromHex>::from_hex(text).ok()
}
