// A number as a script has it: 1 to 16 hex digits.
ghost use Rattle.std.specs.Prelude.{◌≡◌};
ghost use Rattle.numbers.specs.Numeral.{digit_of, number_of};

// Reads a field that must be a number.
// By hand: `u64::from_str_radix` takes `+` and capital letters too, and wants a `&str`.
pub fn parse(field: &[u8]) -> Option<u64>
    ensures { result ≡ number_of field.now }
{
    if field.is_empty() || field.len() > 16 {
        return None;
    }
    let mut value = 0;
    for &byte in field {
        value = 16 * value + digit_value(byte)?;
    }
    Some(value)
}

// The value of a hex digit.
#[tactic(auto, using(crate::proofs::DigitRanges::digit_ranges))]
fn digit_value(byte: u8) -> Option<u64>
    ensures { result ≡ digit_of byte }
{
    match byte {
        b'0'..=b'9' => Some(u64::from(byte - b'0')),
        b'a'..=b'f' => Some(u64::from(byte - b'a') + 10),
        _ => None,
    }
}
