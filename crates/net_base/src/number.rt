ghost use Rattle.std.specs.Prelude.{◌≡◌, ◌^◌, ◌<◌, IfOk, decimal, ◌↔◌, IsTrue, MatchOption, ◌≤◌, length};
ghost use Rattle.std.specs.List.{list_all};
ghost use Rattle.std.specs.Char.{is_ascii_digit};
ghost use Rattle.std.specs.Str.Parse.{digits_value};
ghost use Rattle.net_base.specs.Number.{ReadsNumber, read_number, is_number};

use thiserror::Error;

/// Why a text is no number of the type that was asked for.
#[derive(Clone, Copy, Debug, Drop, PartialEq, Eq, Error)]
pub enum BadNumber {
    /// The text isn't decimal digits without leading zeros.
    #[error("not a decimal number")]
    NotNumber,

    /// The text is a number, and the type can't hold it.
    #[error("the number is too large")]
    TooLarge,
}

/// Reads a decimal number below 2^64, without sign and without leading zeros.
///
/// The error is `TooLarge` where the text is a number all the same, of any length, and `NotNumber`
/// where it is none.
pub fn read_u64(text: &[u8]) -> Result<u64, BadNumber>
    ensures grammar { ReadsNumber (2 ^ 64) text.now result }
    ensures value { result ≡ read_number (2 ^ 64) text.now }
    ensures printed { IfOk result (λ n. text.now ≡ decimal n) }
{
    if !is_decimal(text) {
        return Err(BadNumber::NotNumber);
    }
    match value_of(text) {
        Some(value) => Ok(value),
        None => Err(BadNumber::TooLarge),
    }
}

/// Reads a decimal number below 2^32, without sign and without leading zeros.
///
/// The errors are those of `read_u64`.
pub fn read_u32(text: &[u8]) -> Result<u32, BadNumber>
    ensures grammar { ReadsNumber (2 ^ 32) text.now result }
    ensures value { result ≡ read_number (2 ^ 32) text.now }
    ensures printed { IfOk result (λ n. text.now ≡ decimal n) }
{
    let value = read_u64(text)?;
    u32::try_from(value).map_err(|_| BadNumber::TooLarge)
}

/// How many digits a number has in decimal.
pub fn digits(n: u64) -> usize
    ensures value { result ≡ length (decimal n) }
    ensures within { result ≤ 20 }
{
    let mut count = 1;
    let mut rest = n;
    while rest >= 10 {
        rest /= 10;
        count += 1;
    }
    count
}

/// Whether the text is digits alone without leading zeros.
fn is_decimal(text: &[u8]) -> bool
    ensures { result ≡ is_number text.now }
{
    if text.is_empty() {
        return false;
    }
    if text.len() > 1 && text[0] == b'0' {
        return false;
    }
    all_digits(text)
}

fn all_digits(text: &[u8]) -> bool
    ensures { result ≡ list_all is_ascii_digit text.now }
{
    text.iter().all(|byte| byte.is_ascii_digit())
}

/// The value of some digits, or None from 2^64 on.
fn value_of(digits: &[u8]) -> Option<u64>
    requires { IsTrue (list_all is_ascii_digit digits.now) }
    ensures { MatchOption result (2 ^ 64 ≤ digits_value 10 digits.now)
        (λ n. (n < 2 ^ 64) × (n ≡ digits_value 10 digits.now)) }
{
    let mut value = 0u64;
    for digit in digits {
        let next = u128::from(value) * 10 + u128::from(*digit - b'0');
        if next > u128::from(u64::MAX) {
            return None;
        }
        value = next as u64;
    }
    Some(value)
}
