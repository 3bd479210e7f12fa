ghost use Rattle.std.specs.Prelude.{◌≡◌, ◌≤◌, ◌<◌, ◌^◌, IfSome};
ghost use Rattle.device_text.specs.Text.{number_of};
ghost use Rattle.device_text.specs.Pieces.{trimmed};

/// Parses a number of 1 to `most` digits in the base.
pub fn number(base: u32, most: usize, text: &[u8]) -> Option<u64>
    requires low { 2 ≤ base }
    requires high { base ≤ 10 }
    requires fits { base ^ most ≤ 2 ^ 64 }
    ensures value { result ≡ number_of base most text.now }
    ensures below { IfSome result (λ n. n < base ^ most) }
{
    if text.is_empty() || text.len() > most {
        return None;
    }
    let mut value = 0u64;
    for byte in text {
        let digit = char::from(*byte).to_digit(base)?;
        value = value * u64::from(base) + u64::from(digit);
    }
    Some(value)
}

/// The digits without leading zeros, but at least one digit.
pub fn trim(digits: &[u8]) -> &[u8]
    ensures { result.now ≡ trimmed digits.now }
{
    let mut rest = digits;
    while rest.len() > 1 && rest[0] == b'0' {
        rest = &rest[1..];
    }
    rest
}
