// Integers, read from the front of a line.
ghost use Rattle.std.specs.Prelude.{◌≡◌, ◌^◌, ◌<◌, ◌≤◌, IfSome, length, take, nat_lt};
ghost use Rattle.cow_model.specs.Integer as spec;
ghost use Rattle.cow_lexis.specs.Cuts as cuts;
ghost use Rattle.cow_lexis.specs.Cuts.{digits_len, DigitOf, FewDigits, FrontNumber};

/// The most digits that write a number of 64 bits whatever they are.
const MAX_DIGITS: usize = 19;

// The first 19 bytes of a line, or all where they are fewer.
#[inline(always)]
fn few(line: &[u8]) -> &[u8]
    ensures { result.now ≡ take 19 line.now }
{
    if line.len() > MAX_DIGITS {
        &line[..MAX_DIGITS]
    } else {
        line
    }
}

// The number that a digit writes.
#[inline(always)]
fn digit_of(byte: u8) -> Option<u64>
    ensures { DigitOf byte result }
{
    let digit = u64::from(byte).wrapping_sub(48);
    if digit <= 9 { Some(digit) } else { None }
}

// The number that the digits at the front write, and how many they are.
#[inline(always)]
fn few_digits(front: &[u8]) -> (u64, usize)
    requires { length front.now ≤ 19 }
    ensures { FrontNumber front.now result.0 result.1 }
{
    let mut number = 0u64;
    for (i, byte) in front.iter().enumerate() {
        match digit_of(*byte) {
            Some(digit) => number = number * 10 + digit,
            None => return (number, i),
        }
    }
    (number, front.len())
}

// Whether a digit stands at the front.
#[inline(always)]
fn begins_with_digit(line: &[u8]) -> bool
    ensures { result ≡ nat_lt 0 (digits_len line.now) }
{
    matches!(line, [b'0'..=b'9', ..])
}

// The number that the digits at the front write, and how many they are, or `None` where they are more than 19.
#[inline(always)]
fn front_number(line: &[u8]) -> Option<(u64, usize)>
    ensures { FewDigits line.now result }
{
    let (number, len) = few_digits(few(line));
    if len < MAX_DIGITS {
        return Some((number, len));
    }
    if begins_with_digit(&line[MAX_DIGITS..]) {
        return None;
    }
    Some((number, len))
}

// The number that the digits at the front write, of which the first isn't `0`, up to `most`, and how many they are.
#[inline(always)]
fn front_positive(line: &[u8], most: u64) -> Option<(u64, usize)>
    requires { most < 10 ^ 19 }
    ensures value { result ≡ cuts.front_positive most line.now }
    ensures fits { IfSome result (λ front. front.1 ≤ length line.now) }
{
    let (number, len) = front_number(line)?;
    if len == 0 || line[0] == b'0' {
        return None;
    }
    if number > most {
        return None;
    }
    Some((number, len))
}

// The integer that a `-` and the digits at the front write, and how many they are.
#[inline(always)]
fn front_negative(digits: &[u8]) -> Option<(i64, usize)>
    ensures value { result ≡ cuts.front_negative digits.now }
    ensures fits { IfSome result (λ front. front.1 ≤ length digits.now) }
{
    let (number, len) = front_positive(digits, 1 << 63)?;
    Some((0i64.checked_sub_unsigned(number)?, len))
}

/// The integer that the front of a line writes, up to the first byte that can't be one of it, and its bytes.
/// Each digit is read once.
#[inline(always)]
pub(crate) fn front_integer(line: &[u8]) -> Option<(i64, usize)>
    ensures value { result ≡ cuts.front_integer line.now }
    ensures fits { IfSome result (λ front. front.1 ≤ length line.now) }
{
    match line {
        [b'-', digits @ ..] => {
            let (x, len) = front_negative(digits)?;
            Some((x, len + 1))
        }
        [b'0', more @ ..] => {
            if begins_with_digit(more) {
                return None;
            }
            Some((0, 1))
        }
        _ => {
            let (number, len) = front_positive(line, i64::MAX as u64)?;
            Some((number as i64, len))
        }
    }
}

/// The integer that a word writes: `0`, or digits whose first isn't `0`, behind a `-` or not, within 64
/// bits. Each digit is read once. Takes no memory.
pub fn integer(word: &[u8]) -> Option<i64>
    ensures { result ≡ spec.integer_of word.now }
{
    let (x, len) = front_integer(word)?;
    if len < word.len() {
        return None;
    }
    Some(x)
}
