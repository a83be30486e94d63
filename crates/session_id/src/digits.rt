//! Numbers and their digits in a base, the lowest digit first.
ghost use Rattle.std.specs.Prelude.{◌≡◌, ◌^◌, ◌<◌, ◌≤◌, length, All};
ghost use Rattle.session_id.specs.Identifiers.{number, digits as digits_of};

/// The number that the digits write in the base.
pub fn number_of_digits(digits: &[u8], base: u128) -> u128
    requires below { All (λ digit. digit < base) digits.now }
    requires fits { base ^ length digits.now ≤ 2 ^ 120 }
    ensures { result ≡ number base digits.now }
{
    let mut number = 0;
    for i in (0..digits.len()).rev() {
        number = digits[i] as u128 + base * number;
    }
    number
}

/// The number that the bytes write, which are digits in base 256.
pub fn number_of_bytes(bytes: &[u8]) -> u128
    requires { length bytes.now ≤ 15 }
    ensures number { result ≡ number 256 bytes.now }
    ensures range { All (λ byte. byte < 256) bytes.now }
{
    number_of_digits(bytes, 256)
}

/// Writes the first digits of the number in the base.
pub fn write_digits(number: u128, base: u128, digits: &mut [u8])
    requires some { 0 < base }
    requires byte { base ≤ 256 }
    ensures { digits.new ≡ digits_of base (length digits.old) number }
{
    let mut rest = number;
    for i in 0..digits.len() {
        digits[i] = (rest % base) as u8;
        rest /= base;
    }
}
