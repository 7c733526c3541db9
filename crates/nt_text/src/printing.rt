//! Numbers in decimal digits, and fields of a line, each with a space before it.
ghost use Rattle.std.specs.Prelude.{◌≡◌, ◌<◌, ◌≤◌, ◌/◌, ◌%◌, ◌++◌, ◌∷◌, [], OnOk, decimal};
ghost use Rattle.nt_text.specs.Lines.{spaced};
ghost use Rattle.nt_text.specs.Digits.{two_digits};

use std::alloc::AllocError;

/// The two digits of each number below 100.
static PAIRS: [u8; 200] =
    *b"00010203040506070809101112131415161718192021222324252627282930313233343536373839404142434445464748495051525354555657585960616263646566676869707172737475767778798081828384858687888990919293949596979899";

/// The two digits of a number below 100, of which the first may be 0.
fn two_digits(n: u64) -> [u8; 2]
    requires { n < 100 }
    ensures { result ≡ two_digits n }
{
    let at = n as usize * 2;
    [PAIRS[at], PAIRS[at + 1]]
}

/// The four digits of a number below 10,000, of which the first may be 0.
fn four_digits(n: u64) -> [u8; 4]
    requires { n < 10000 }
    ensures { result ≡ two_digits (n / 100) ++ two_digits (n % 100) }
{
    let [thousands, hundreds] = two_digits(n / 100);
    let [tens, ones] = two_digits(n % 100);
    [thousands, hundreds, tens, ones]
}

/// How many bytes can be added without more memory.
#[inline(always)]
fn room(out: &Vec<u8>) -> usize {
    out.capacity().wrapping_sub(out.len())
}

/// Adds the digits of a number below 10,000.
#[inline(always)]
fn put_short(out: &mut Vec<u8>, n: u64) -> Result<(), AllocError>
    requires { n < 10000 }
    ensures { OnOk result (out.new.items ≡ out.old.items ++ decimal n) }
{
    if n < 10 {
        return out.extend_from_slice(&[b'0' + n as u8]);
    }
    if n < 100 {
        return out.extend_from_slice(&two_digits(n));
    }
    if n < 1000 {
        let [tens, ones] = two_digits(n % 100);
        return out.extend_from_slice(&[b'0' + (n / 100) as u8, tens, ones]);
    }
    out.extend_from_slice(&four_digits(n))
}

/// Adds the digits of a number of five or six digits.
#[inline(always)]
fn put_six(out: &mut Vec<u8>, n: u64) -> Result<(), AllocError>
    requires { (10000 ≤ n) × (n < 1000000) }
    ensures { OnOk result (out.new.items ≡ out.old.items ++ decimal n) }
{
    let [first, second] = two_digits(n / 10_000);
    let [thousands, hundreds, tens, ones] = four_digits(n % 10_000);
    if n < 100_000 {
        return out.extend_from_slice(&[second, thousands, hundreds, tens, ones]);
    }
    out.extend_from_slice(&[first, second, thousands, hundreds, tens, ones])
}

/// Adds the digits of a number of any length.
#[inline(never)]
fn put_any(out: &mut Vec<u8>, n: u64) -> Result<(), AllocError>
    ensures { OnOk result (out.new.items ≡ out.old.items ++ decimal n) }
{
    if n < 10_000 {
        return put_short(out, n);
    }
    put_any(out, n / 10_000)?;
    out.extend_from_slice(&four_digits(n % 10_000))
}

/// Adds a number in decimal digits. Most have one digit, for which no register has to be kept.
pub fn put_digits(out: &mut Vec<u8>, n: u64) -> Result<(), AllocError>
    ensures { OnOk result (out.new.items ≡ out.old.items ++ decimal n) }
{
    if n < 10 {
        out.push(b'0' + n as u8)?;
        return Ok(());
    }
    put_more_digits(out, n)
}

/// Adds a number of any length in decimal digits.
#[inline(never)]
fn put_more_digits(out: &mut Vec<u8>, n: u64) -> Result<(), AllocError>
    ensures { OnOk result (out.new.items ≡ out.old.items ++ decimal n) }
{
    // Where there is room, as there most often is, no memory is asked for, so that no register has
    // to be kept for the call.
    if room(out) < 6 {
        return put_digits_and_grow(out, n);
    }
    put_digits_within(out, n)
}

#[cold]
#[inline(never)]
fn put_digits_and_grow(out: &mut Vec<u8>, n: u64) -> Result<(), AllocError>
    ensures { OnOk result (out.new.items ≡ out.old.items ++ decimal n) }
{
    put_digits_within(out, n)
}

#[inline(always)]
fn put_digits_within(out: &mut Vec<u8>, n: u64) -> Result<(), AllocError>
    ensures { OnOk result (out.new.items ≡ out.old.items ++ decimal n) }
{
    if n < 10_000 {
        return put_short(out, n);
    }
    if n < 1_000_000 {
        return put_six(out, n);
    }
    put_any(out, n)
}

/// Adds a field behind others. Most names are short, so these are added in one write of known
/// length.
pub fn put_field(out: &mut Vec<u8>, field: &[u8]) -> Result<(), AllocError>
    ensures { OnOk result (out.new.items ≡ out.old.items ++ spaced (field.now ∷ [])) }
{
    if room(out) < 5 {
        return put_long_field(out, field);
    }
    match field {
        [a] => out.extend_from_slice(&[b' ', *a]),
        [a, b] => out.extend_from_slice(&[b' ', *a, *b]),
        [a, b, c] => out.extend_from_slice(&[b' ', *a, *b, *c]),
        [a, b, c, d] => out.extend_from_slice(&[b' ', *a, *b, *c, *d]),
        _ => put_long_field(out, field),
    }
}

/// Adds a field of any length behind others.
#[inline(never)]
fn put_long_field(out: &mut Vec<u8>, field: &[u8]) -> Result<(), AllocError>
    ensures { OnOk result (out.new.items ≡ out.old.items ++ spaced (field.now ∷ [])) }
{
    out.push(b' ')?;
    out.extend_from_slice(field)
}

/// Adds a number of two digits, as a field behind others.
#[inline(always)]
fn put_pair(out: &mut Vec<u8>, n: u64) -> Result<(), AllocError>
    requires { (10 ≤ n) × (n < 100) }
    ensures { OnOk result (out.new.items ≡ out.old.items ++ spaced (decimal n ∷ [])) }
{
    let [tens, ones] = two_digits(n);
    out.extend_from_slice(&[b' ', tens, ones])
}

/// Adds a number of four digits, as a field behind others.
#[inline(always)]
fn put_four(out: &mut Vec<u8>, n: u64) -> Result<(), AllocError>
    requires { (1000 ≤ n) × (n < 10000) }
    ensures { OnOk result (out.new.items ≡ out.old.items ++ spaced (decimal n ∷ [])) }
{
    let [thousands, hundreds, tens, ones] = four_digits(n);
    out.extend_from_slice(&[b' ', thousands, hundreds, tens, ones])
}

/// Adds a number of five or six digits, as a field behind others.
#[inline(always)]
fn put_long_number(out: &mut Vec<u8>, n: u64) -> Result<(), AllocError>
    requires { (10000 ≤ n) × (n < 1000000) }
    ensures { OnOk result (out.new.items ≡ out.old.items ++ spaced (decimal n ∷ [])) }
{
    let [first, second] = two_digits(n / 10_000);
    let [thousands, hundreds, tens, ones] = four_digits(n % 10_000);
    if n < 100_000 {
        return out.extend_from_slice(&[b' ', second, thousands, hundreds, tens, ones]);
    }
    out.extend_from_slice(&[b' ', first, second, thousands, hundreds, tens, ones])
}

/// Adds a number of three digits, or of more than six, as a field behind others.
#[inline(never)]
fn put_other(out: &mut Vec<u8>, n: u64) -> Result<(), AllocError>
    ensures { OnOk result (out.new.items ≡ out.old.items ++ spaced (decimal n ∷ [])) }
{
    out.push(b' ')?;
    put_digits(out, n)
}

/// Adds a number, in decimal digits, as a field behind others.
pub fn put_number(out: &mut Vec<u8>, n: u64) -> Result<(), AllocError>
    ensures { OnOk result (out.new.items ≡ out.old.items ++ spaced (decimal n ∷ [])) }
{
    if room(out) < 7 {
        return put_number_and_grow(out, n);
    }
    put_number_within(out, n)
}

#[cold]
#[inline(never)]
fn put_number_and_grow(out: &mut Vec<u8>, n: u64) -> Result<(), AllocError>
    ensures { OnOk result (out.new.items ≡ out.old.items ++ spaced (decimal n ∷ [])) }
{
    put_number_within(out, n)
}

#[inline(always)]
fn put_number_within(out: &mut Vec<u8>, n: u64) -> Result<(), AllocError>
    ensures { OnOk result (out.new.items ≡ out.old.items ++ spaced (decimal n ∷ [])) }
{
    if n < 10 {
        return out.extend_from_slice(&[b' ', b'0' + n as u8]);
    }
    if n < 100 {
        return put_pair(out, n);
    }
    if 10_000 <= n && n < 1_000_000 {
        return put_long_number(out, n);
    }
    if 1000 <= n && n < 10_000 {
        return put_four(out, n);
    }
    put_other(out, n)
}

/// Adds a processor's number, with `p` before it, as a field behind others.
pub fn put_processor(out: &mut Vec<u8>, n: u64) -> Result<(), AllocError>
    ensures { OnOk result (out.new.items ≡ out.old.items ++ spaced ((112 ∷ decimal n) ∷ [])) }
{
    if n < 10 && 3 <= room(out) {
        return out.extend_from_slice(&[b' ', b'p', b'0' + n as u8]);
    }
    if 10 <= n && n < 100 && 4 <= room(out) {
        let [tens, ones] = two_digits(n);
        return out.extend_from_slice(&[b' ', b'p', tens, ones]);
    }
    put_any_processor(out, n)
}

#[inline(never)]
fn put_any_processor(out: &mut Vec<u8>, n: u64) -> Result<(), AllocError>
    ensures { OnOk result (out.new.items ≡ out.old.items ++ spaced ((112 ∷ decimal n) ∷ [])) }
{
    out.extend_from_slice(b" p")?;
    put_digits(out, n)
}
