// The number that an argument gives in decimal digits. The `parse` of `u32` is no choice: it takes a `+` in front, and bytes need not be text.
ghost use Rattle.std.specs.Prelude.{◌≡◌};
ghost use Rattle.asking.specs.Decimal.{digit_of, number_of};

// The digit that a byte is, if it is one.
fn digit(byte: u8) -> Option<u32>
    ensures { result ≡ digit_of byte }
{
    match byte {
        b'0'..=b'9' => Some(u32::from(byte - b'0')),
        _ => None,
    }
}

// The number that a text gives in decimal digits; none if the text is empty, a byte is no digit, or the number is above the last position (R2).
#[tactic(auto, using(crate::proofs::Decimals::too_large, crate::proofs::Decimals::all_read))]
pub fn decimal(text: &[u8]) -> Option<u32>
    ensures { result ≡ number_of text.now }
{
    if text.is_empty() {
        return None;
    }
    let mut value: u32 = 0;
    for byte in text {
        value = value.checked_mul(10)?.checked_add(digit(*byte)?)?;
    }
    Some(value)
}
