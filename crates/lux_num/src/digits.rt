// The parts of a text that may be a number.
ghost use Rattle.std.specs.Prelude.{◌≡◌, ℕ, ◌+◌, ◌-◌, ◌*◌, ◌^◌, ◌<◌, ◌≤◌, ◌&&◌, nat_le, true, fold, length, is_some, IfSome, pos, negsuc, ◌≤ℤ◌};
ghost use Rattle.std.specs.List.{list_all, prefix_len};
ghost use Rattle.std.specs.Char.{is_ascii_digit};
ghost use Rattle.lux_num.specs.Digits.{behind_sign, has_minus, has_point, front_digits, behind_digits, is_exponent, exponent_value, digits_value};

/// Whether a minus stands in front.
pub fn has_minus(text: &[u8]) -> bool
    ensures { result ≡ has_minus text.now }
{
    !text.is_empty() && text[0] == b'-'
}

/// The text without a sign in front.
pub fn behind_sign(text: &[u8]) -> &[u8]
    ensures value { result.now ≡ behind_sign text.now }
    ensures len { length result.now ≤ length text.now }
{
    if !text.is_empty() && (text[0] == b'+' || text[0] == b'-') {
        &text[1..]
    } else {
        text
    }
}

/// The digits that a text begins with, and what stands behind them.
pub fn split_digits(text: &[u8]) -> (&[u8], &[u8])
    ensures front { result.0.now ≡ front_digits text.now }
    ensures behind { result.1.now ≡ behind_digits text.now }
    ensures len { length result.0.now + length result.1.now ≡ length text.now }
    ensures digits { list_all is_ascii_digit result.0.now ≡ true }
{
    let len = digit_count(text);
    (&text[..len], &text[len..])
}

/// Whether a point stands in front.
pub fn has_point(text: &[u8]) -> bool
    ensures { result ≡ has_point text.now }
{
    !text.is_empty() && text[0] == b'.'
}

fn digit_count(text: &[u8]) -> usize
    ensures count { result ≡ prefix_len is_ascii_digit text.now }
    ensures within { result ≤ length text.now }
{
    for (i, byte) in text.iter().enumerate() {
        if !byte.is_ascii_digit() {
            return i;
        }
    }
    text.len()
}

/// The number that `value` and further digits behind it are, 30 digits at most.
pub fn with_digits(value: u128, digits: &[u8]) -> u128
    requires digits { list_all is_ascii_digit digits.now ≡ true }
    requires few { length digits.now ≤ 30 }
    requires small { value < 10 ^ (30 - length digits.now) }
    ensures value { result ≡ fold (λ value digit. 10 * value + (digit - 48)) value digits.now }
    ensures small { (k : ℕ) → value < 10 ^ k → result < 10 ^ (k + length digits.now) }
{
    let mut total = value;
    for digit in digits {
        total = 10 * total + u128::from(*digit - b'0');
    }
    total
}

/// What an exponent says: nothing, or a letter, an optional sign and one or two digits.
pub fn exponent_of(text: &[u8]) -> Option<i32>
    ensures exactly { is_some result ≡ is_exponent text.now }
    ensures value { IfSome result (λ power. power ≡ exponent_value text.now) }
    ensures least { IfSome result (λ power. negsuc 98 ≤ℤ power) }
    ensures most { IfSome result (λ power. power ≤ℤ pos 99) }
{
    if text.is_empty() {
        return Some(0);
    }
    let signed = &text[1..];
    let power = short_value(behind_sign(signed))? as i32;
    if has_minus(signed) {
        Some(-power)
    } else {
        Some(power)
    }
}

// The number that one or two digits are.
fn short_value(digits: &[u8]) -> Option<u32>
    ensures exactly { is_some result ≡ (list_all is_ascii_digit digits.now && nat_le 1 (length digits.now) && nat_le (length digits.now) 2) }
    ensures value { IfSome result (λ value. value ≡ digits_value digits.now) }
    ensures small { IfSome result (λ value. value ≤ 99) }
{
    match digits {
        [last] if last.is_ascii_digit() => Some(u32::from(*last - b'0')),
        [first, last] if first.is_ascii_digit() && last.is_ascii_digit() => {
            Some(10 * u32::from(*first - b'0') + u32::from(*last - b'0'))
        }
        _ => None,
    }
}
