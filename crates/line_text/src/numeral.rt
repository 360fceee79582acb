ghost use Rattle.std.specs.Prelude.{◌≡◌, ℕ, ◌^◌, ◌<◌, IfSome, IfNone, Some, None, if◌then◌else◌};
ghost use Rattle.line_text.specs.Lines.{count, address};
ghost use Rattle.line_text.specs.Numerals.{is_digit_of, digit_of, numeral_in, count_in, address_in};
ghost use Rattle.line_text.specs.InnerNumerals.{IsBase, pushed_in, rest_in};

/// What a byte counts as a digit of this base, if it is one.
#[inline(always)]
fn digit(base: u64, byte: u8) -> Option<u64>
    requires { IsBase base }
    ensures { result ≡ (if is_digit_of base byte then Some (digit_of byte) else None) }
{
    match byte {
        b'0'..=b'9' => Some(u64::from(byte) - u64::from(b'0')),
        b'a'..=b'f' if base == 16 => Some(u64::from(byte) - u64::from(b'a') + 10),
        _ => None,
    }
}

/// The number of a digit after these, if it is below 2^64.
#[inline(always)]
fn pushed(base: u64, value: u64, byte: u8) -> Option<u64>
    requires { IsBase base }
    ensures { result ≡ pushed_in base value byte }
{
    let last = digit(base, byte)?;
    value.checked_mul(base)?.checked_add(last)
}

/// The number that digits spell, if it is below 2^64. It stops at the first digit that passes that.
#[inline(always)]
#[tactic(auto, using(crate::proofs::DigitLemmas::rest_stops_at, crate::proofs::DigitLemmas::rest_ends_at))]
fn value(base: u64, digits: &[u8]) -> Option<u64>
    requires { IsBase base }
    ensures { result ≡ rest_in base 0 digits.now }
{
    let mut sum = 0;
    for &byte in digits {
        sum = pushed(base, sum, byte)?;
    }
    Some(sum)
}

/// The number that a numeral spells: some digits, without a leading zero but for 0 itself.
#[inline(always)]
#[tactic(auto, using(crate::proofs::DigitLemmas::one_digit))]
fn numeral(base: u64, digits: &[u8]) -> Option<u64>
    requires { IsBase base }
    ensures { result ≡ numeral_in base digits.now }
{
    match digits {
        [] | [b'0', _, ..] => None,
        [byte] => digit(base, *byte),
        _ => value(base, digits),
    }
}

/// The number that a field spells as a count: decimal digits without a leading zero, or 0, below
/// 2^64. `None` exactly where it is no count.
#[tactic(auto, using(crate::proofs::NumeralLemmas::count_read, crate::proofs::NumeralLemmas::count_again), unfolding(crate::specs::Numerals::count_in))]
pub fn count_of(field: &[u8]) -> Option<u64>
    ensures exact { result ≡ count_in field.now }
    ensures found { IfSome result (λ n. field.now ≡ count n) }
    ensures none { IfNone result ((n : ℕ) → n < 2 ^ 64 → field.now ≡ count n → ⊥) }
{
    numeral(10, field)
}

/// The number of a field that is 0x and a numeral.
#[inline(always)]
#[tactic(auto, unfolding(crate::specs::Numerals::address_in))]
fn prefixed(field: &[u8]) -> Option<u64>
    ensures { result ≡ address_in field.now }
{
    match field {
        [b'0', b'x', digits @ ..] => numeral(16, digits),
        _ => None,
    }
}

/// The number that a field spells as an address: 0x and 1 to 16 digits of 0 to 9, a to f, without a
/// leading zero but for 0x0. `None` exactly where it is no address.
#[inline(never)]
#[tactic(auto, using(crate::proofs::NumeralLemmas::address_read, crate::proofs::NumeralLemmas::address_again))]
pub fn address_of(field: &[u8]) -> Option<u64>
    ensures exact { result ≡ address_in field.now }
    ensures found { IfSome result (λ n. field.now ≡ address n) }
    ensures none { IfNone result ((n : ℕ) → n < 2 ^ 64 → field.now ≡ address n → ⊥) }
{
    prefixed(field)
}
