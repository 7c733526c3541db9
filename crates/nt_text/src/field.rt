//! What stands in a field: numbers and names.
ghost use Rattle.std.specs.Prelude.{◌≡◌, ◌≤◌, ◌∷◌, [], option_map, IfSome};
ghost use Rattle.std.specs.List.{list_all};
ghost use Rattle.std.specs.Str.{bytes_eq};
ghost use Rattle.nt_text.specs.Fields.{digits_after, at_most, number_up_to, is_name_byte, is_name};
ghost use Rattle.nt_text.specs.Fields.{name_of};

/// The number that decimal digits stand for, where all bytes are digits and it is at most `most`.
fn digits(field: &[u8], most: u64) -> Option<u64>
    ensures value { result ≡ at_most most (digits_after 0 field.now) }
    ensures within { IfSome result (λ n. n ≤ most) }
{
    let mut value: u64 = 0;
    for b in field {
        if !b.is_ascii_digit() {
            return None;
        }
        value = value.checked_mul(10)?.checked_add((*b - b'0') as u64)?;
    }
    if value <= most { Some(value) } else { None }
}

/// The number that one digit stands for, where the byte is a digit and it is at most `most`.
#[inline(always)]
fn one_digit(byte: u8, most: u64) -> Option<u64>
    ensures value { result ≡ at_most most (digits_after 0 (byte ∷ [])) }
    ensures within { IfSome result (λ n. n ≤ most) }
{
    if !byte.is_ascii_digit() {
        return None;
    }
    let value = u64::from(byte - b'0');
    if value <= most { Some(value) } else { None }
}

/// The decimal number of a field: digits without leading zeros, at most `most`. None exactly where
/// it is no such number.
pub fn number(field: &[u8], most: u64) -> Option<u64>
    ensures value { result ≡ number_up_to most field.now }
    ensures within { IfSome result (λ n. n ≤ most) }
{
    match field {
        [] => None,
        [digit] => one_digit(*digit, most),
        [b'0', _, ..] => None,
        _ => digits(field, most),
    }
}

/// Whether a field is a word, byte by byte: words are short.
#[inline(always)]
#[tactic(auto, using(crate::proofs::SameBytes::other_length, crate::proofs::SameBytes::other_byte, crate::proofs::SameBytes::same_bytes))]
pub fn is_word(field: &[u8], word: &[u8]) -> bool
    ensures { result ≡ bytes_eq field.now word.now }
{
    if field.len() != word.len() {
        return false;
    }
    for i in 0..field.len() {
        if field[i] != word[i] {
            return false;
        }
    }
    true
}

/// Whether a byte may stand in a name.
fn is_name_byte(byte: u8) -> bool
    ensures { result ≡ is_name_byte byte }
{
    byte.is_ascii_lowercase() || byte.is_ascii_digit() || byte == b'_'
}

/// Whether a field is a name: 1 to 16 of a to z, 0 to 9 and `_`.
fn is_name(field: &[u8]) -> bool
    ensures { result ≡ is_name field.now }
{
    !field.is_empty() && field.len() <= 16 && all_name_bytes(field)
}

/// Whether all bytes may stand in a name.
fn all_name_bytes(field: &[u8]) -> bool
    ensures { result ≡ list_all is_name_byte field.now }
{
    field.iter().all(|b| is_name_byte(*b))
}

/// The name that a field is: 1 to 16 of a to z, 0 to 9 and `_`. None exactly where it is no name.
pub fn name(field: &[u8]) -> Option<&str>
    ensures { option_map (λ s. s.now) result ≡ name_of field.now }
{
    if !is_name(field) {
        return None;
    }
    match str::from_utf8(field) {
        Ok(name) => Some(name),
        Err(_) => unreachable!(),
    }
}
