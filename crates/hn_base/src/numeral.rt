//! Numbers in digits.

ghost use Rattle.std.specs.Prelude.{◌≡◌, ℕ, ◌≤◌, IfSome, IfNone};
ghost use Rattle.hn_base.specs.Numeral.{IsShortNumeral};

/// The most digits that `number` reads: so many have a value below 2^128 in each radix.
pub const MOST_DIGITS: usize = 32;

/// The number that one to `most` digits of a radix write, in either case; leading zeros are allowed. `None` if and
/// only if the text is no such numeral. Never allocates.
pub fn number(text: &[u8], radix: u32, most: usize) -> Option<u128>
    requires low { 2 ≤ radix }
    requires high { radix ≤ 16 }
    requires few { most ≤ MOST_DIGITS }
    ensures found { IfSome result (IsShortNumeral radix most text.now) }
    ensures none { IfNone result ((n : ℕ) → ¬ IsShortNumeral radix most text.now n) }
{
    if text.is_empty() || text.len() > most {
        return None;
    }
    let base = u128::from(radix);
    let mut value = 0;
    for byte in text {
        let digit = char::from(*byte).to_digit(radix)?;
        value = value * base + u128::from(digit);
    }
    Some(value)
}
