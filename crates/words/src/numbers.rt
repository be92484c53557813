//! What the characters of a word say: a name, or a number.
ghost use Rattle.std.specs.Prelude.{◌≡◌, ◌^◌, ◌<◌, ◌≤◌, IfSome, if◌then◌else◌, Some, None};
ghost use Rattle.words.specs.Numbers.{is_digit, digit_value, value_of, is_minus, unsigned_part, signed_of};

// What a digit counts in a base, or None for what is no digit in it. The digits are 0 to 9, then A to F.
fn digit(c: u8, base: u8) -> Option<u8>
    requires { base ≤ 16 }
    ensures { result ≡ (if is_digit base c then Some (digit_value c) else None) }
{
    let value = match c {
        b'0'..=b'9' => c - b'0',
        b'A'..=b'F' => c - b'A' + 10,
        _ => return None,
    };
    (value < base).then_some(value)
}

// The number that 1 to `most` digits write.
fn value(text: &[u8], base: u8, most: usize) -> Option<u64>
    requires { (base ≤ 16) × (most ≤ 10) }
    ensures value { result ≡ value_of base most text.now }
    ensures below { IfSome result (λ n. n < 2 ^ 40) }
{
    if text.is_empty() || text.len() > most {
        return None;
    }
    let mut n: u64 = 0;
    for c in text {
        n = n * u64::from(base) + u64::from(digit(*c, base)?);
    }
    Some(n)
}

/// The number that 1 to 10 decimal digits write, or None for any other text.
pub fn decimal_value(text: &[u8]) -> Option<u64>
    ensures { result ≡ value_of 10 10 text.now }
{
    value(text, 10, 10)
}

/// The number that 1 to 8 hexadecimal digits write, their letters in capitals, or None for any other text.
pub fn hexadecimal_value(text: &[u8]) -> Option<u64>
    ensures { result ≡ value_of 16 8 text.now }
{
    value(text, 16, 8)
}

// Whether a number begins with a minus.
fn is_minus(text: &[u8]) -> bool
    ensures { result ≡ is_minus text.now }
{
    matches!(text, [b'-', ..])
}

// What follows a number's sign.
fn unsigned_part(text: &[u8]) -> &[u8]
    ensures { result.now ≡ unsigned_part text.now }
{
    match text {
        [b'-' | b'+', digits @ ..] => digits,
        _ => text,
    }
}

/// The number that 1 to 10 decimal digits after a sign or none write, or None for any other text.
pub fn signed_value(text: &[u8]) -> Option<i64>
    ensures { result ≡ signed_of text.now }
{
    // Ten digits lie within an i64, so that the cast loses nothing.
    let n = value(unsigned_part(text), 10, 10)? as i64;
    Some(if is_minus(text) { -n } else { n })
}
