//! Numbers as a script writes them.
ghost use Rattle.std.specs.Prelude.{◌≡◌};
ghost use Rattle.scripts.specs.Numbers.{decimal_of, hexadecimal_of};

use words::hexadecimal_value;

/// The number that one or more decimal digits write; any above 2^64 - 1 is that one.
pub fn read_decimal(text: &[u8]) -> Option<u64>
    ensures { result ≡ decimal_of text.now }
{
    if text.is_empty() {
        return None;
    }
    let mut value: u64 = 0;
    for c in text {
        let digit = char::from(*c).to_digit(10)?;
        value = value.saturating_mul(10).saturating_add(u64::from(digit));
    }
    Some(value)
}

/// The byte that two hexadecimal digits write, with capital or small letters.
pub fn read_hexadecimal(text: &[u8]) -> Option<u8>
    ensures { result ≡ hexadecimal_of text.now }
{
    let [high, low] = text else {
        return None;
    };
    let value = hexadecimal_value(&[high.to_ascii_uppercase(), low.to_ascii_uppercase()])?;
    u8::try_from(value).ok()
}
