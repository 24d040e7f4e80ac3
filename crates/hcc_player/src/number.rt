//! Reads words that are numbers.
ghost use Rattle.std.specs.Prelude.{◌≡◌, ◌<◌, ◌^◌, ℕ, Ok, IfOk, decimal};
ghost use Rattle.hcc_player.specs.Number.{digit_onto, digits_from, number_of, small_number_of};
ghost use Rattle.hcc_player.specs.Number.{charge_of, name_of, number_below};

use crate::fault::TextFault;

/// The number with one more digit behind it.
#[tactic(auto, unfolding(crate::specs::Number::digit_onto))]
fn digit_onto(number: u64, byte: u8) -> Result<u64, TextFault>
    ensures { result ≡ digit_onto number byte }
{
    if !byte.is_ascii_digit() {
        return Err(TextFault::BadNumber);
    }
    let more = u128::from(number) * 10 + u128::from(byte - b'0');
    u64::try_from(more).map_err(|_| TextFault::BadNumber)
}

/// The number with these digits behind it.
fn digits_from(start: u64, digits: &[u8]) -> Result<u64, TextFault>
    ensures { result ≡ digits_from start digits.now }
{
    let mut number = start;
    for digit in digits {
        number = digit_onto(number, *digit)?;
    }
    Ok(number)
}

/// The number of decimal digits without a leading zero, or of `0`.
#[tactic(auto, unfolding(crate::specs::Number::number_of))]
fn numeral(word: &[u8]) -> Result<u64, TextFault>
    ensures { result ≡ number_of word.now }
{
    match word {
        [] => Err(TextFault::BadNumber),
        [b'0', _, ..] => Err(TextFault::BadNumber),
        _ => digits_from(0, word),
    }
}

/// Reads a number below `2^64`: decimal digits without a leading zero, or `0`.
pub fn number(word: &[u8]) -> Result<u64, TextFault>
    ensures value { result ≡ number_of word.now }

    // A number is read exactly where the word is that number's decimal form.
    ensures read { IfOk result (λ n. word.now ≡ decimal n) }
    ensures takes { (n : ℕ) → n < 2 ^ 64 → word.now ≡ decimal n → result ≡ Ok n }
{
    numeral(word)
}

/// Reads a number below this one.
#[tactic(auto, unfolding(crate::specs::Number::number_below))]
pub fn number_below(end: u32, word: &[u8]) -> Result<u32, TextFault>
    ensures value { result ≡ number_below end word.now }
    ensures below { IfOk result (λ n. n < end) }
{
    let number = number(word)?;
    if number < u64::from(end) {
        Ok(number as u32)
    } else {
        Err(TextFault::OutOfRange)
    }
}

/// Reads a number below `2^32`, as of a client or a slot.
#[tactic(auto, unfolding(crate::specs::Number::number_below))]
pub fn small_number(word: &[u8]) -> Result<u32, TextFault>
    ensures { result ≡ small_number_of word.now }
{
    let number = number(word)?;
    u32::try_from(number).map_err(|_| TextFault::OutOfRange)
}

/// Reads a charge: a number from 1 to 4,294,967,295.
#[tactic(auto, unfolding(crate::specs::Number::charge_of))]
pub fn charge(word: &[u8]) -> Result<u32, TextFault>
    ensures value { result ≡ charge_of word.now }
    ensures some { IfOk result (λ charge. 0 < charge) }
{
    let charge = small_number(word)?;
    if charge == 0 {
        return Err(TextFault::OutOfRange);
    }
    Ok(charge)
}

/// Reads the name of a reference, or `-` for none.
#[tactic(auto, unfolding(crate::specs::Number::name_of))]
pub fn name(word: &[u8]) -> Result<Option<u64>, TextFault>
    ensures { result ≡ name_of word.now }
{
    if word == b"-".as_slice() {
        return Ok(None);
    }
    let name = number(word)?;
    Ok(Some(name))
}
