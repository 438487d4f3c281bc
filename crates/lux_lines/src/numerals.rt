// Whole numbers of at most 64 bits.
ghost use Rattle.std.specs.Prelude.{◌≡◌, ◌-◌, ◌^◌, ◌≤◌, ◌&&◌, nat_lt, length, is_some, IfSome};
ghost use Rattle.std.specs.List.{list_all};
ghost use Rattle.std.specs.Char.{is_ascii_digit};
ghost use Rattle.lux_lines.specs.Numerals.{is_numeral, numeral_value};

/// The number that a word is: 1 to 20 digits, the first no 0 but in `0` itself, for a number of 64 bits.
pub fn numeral(word: &[u8]) -> Option<u64>
    ensures exactly { is_some result ≡ is_numeral word.now }
    ensures value { IfSome result (λ number. number ≡ numeral_value word.now) }
{
    if word.is_empty() || 20 < word.len() || (1 < word.len() && word[0] == b'0') {
        return None;
    }
    if word.len() < 20 {
        return short_value(word);
    }
    long_value(word)
}

// The number that 20 digits are, where it has 64 bits.
#[tactic(auto, using(crate::proofs::Digits::last_digit, std::proofs::lemmas::Bool::Decides::nat_tests))]
fn long_value(word: &[u8]) -> Option<u64>
    requires { length word.now ≡ 20 }
    ensures exactly { is_some result ≡ (list_all is_ascii_digit word.now && nat_lt (numeral_value word.now) (2 ^ 64)) }
    ensures value { IfSome result (λ number. number ≡ numeral_value word.now) }
{
    let front = short_value(&word[..19])?;
    let last = digit_value(word[19])?;
    if (u64::MAX - last) / 10 < front {
        return None;
    }
    Some(10 * front + last)
}

// The number that at most 19 digits are.
fn short_value(word: &[u8]) -> Option<u64>
    requires { length word.now ≤ 19 }
    ensures exactly { is_some result ≡ list_all is_ascii_digit word.now }
    ensures value { IfSome result (λ number. number ≡ numeral_value word.now) }
{
    let mut value: u64 = 0;
    for byte in word {
        value = 10 * value + digit_value(*byte)?;
    }
    Some(value)
}

fn digit_value(byte: u8) -> Option<u64>
    ensures exactly { is_some result ≡ is_ascii_digit byte }
    ensures value { IfSome result (λ digit. digit ≡ byte - 48) }
    ensures small { IfSome result (λ digit. digit ≤ 9) }
{
    if byte.is_ascii_digit() {
        Some(u64::from(byte - b'0'))
    } else {
        None
    }
}
