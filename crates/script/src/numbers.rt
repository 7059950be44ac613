// The numbers that words write: decimal or hexadecimal, and a byte in two hexadecimal digits.
ghost use Rattle.std.specs.Prelude.{◌≡◌, ◌≤◌, IfSome};
ghost use Rattle.script.specs.Numbers.{in_base, number_in, byte_in};

// The number of at least one digit and nothing else, in a base; none where it is above `most`.
fn in_base(base: u32, most: u32, word: &[u8]) -> Option<u32>
    requires low { 2 ≤ base }
    requires high { base ≤ 16 }
    ensures number { result ≡ in_base base most word.now }
    ensures small { IfSome result (λ v. v ≤ most) }
{
    if word.is_empty() {
        return None;
    }
    let mut value = 0u64;
    for &b in word {
        let digit = char::from(b).to_digit(base)?;
        value = value * u64::from(base) + u64::from(digit);
        if u64::from(most) < value {
            return None;
        }
    }
    Some(value as u32)
}

// The number that a word writes, in hexadecimal after 0x and else in decimal; none where it is above `most`.
pub(crate) fn number_in(most: u32, word: &[u8]) -> Option<u32>
    ensures number { result ≡ number_in most word.now }
    ensures small { IfSome result (λ v. v ≤ most) }
{
    match word.strip_prefix(b"0x") {
        Some(digits) => in_base(16, most, digits),
        None => in_base(10, most, word),
    }
}

// The byte that a word of two hexadecimal digits writes.
pub(crate) fn byte_in(word: &[u8]) -> Option<u8>
    ensures { result ≡ byte_in word.now }
{
    if word.len() != 2 {
        return None;
    }
    let byte = in_base(16, 255, word)?;
    Some(byte as u8)
}
