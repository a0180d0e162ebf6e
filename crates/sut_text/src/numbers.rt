//! Numbers that texts spell.

ghost use Rattle.std.specs.Prelude.{◌≡◌, ◌≤◌, ◌<◌, ◌^◌, Some, None, nat_lt, option_map, if◌then◌else◌, length};
ghost use Rattle.std.specs.Str.Parse.{digits_value, IsNumeral};
ghost use Rattle.sut_text.specs.Number.{whole_of, bad_place, is_shortest, is_narrow, with_sign, no_digit, digits_read};

/// Why a text is no number. A place counts the bytes from 0.
#[derive(Debug, Clone, Copy, PartialEq, Eq)]
pub enum NumberFault {
    /// The text has no byte.
    Empty,
    /// The first place where a digit is wanted and not found; at place 0 a minus may stand too.
    BadByte(usize),
    /// A zero stands before another digit, or behind a minus.
    NotShortest,
    /// The number lies outside -2^127 to 2^127 - 1.
    TooWide,
}

// The first byte that is no digit.
fn find_no_digit(digits: &[u8]) -> Option<usize>
    ensures { result ≡ no_digit digits.now }
{
    digits.iter().position(|b| !b.is_ascii_digit())
}

// The first place where a digit is wanted and not found.
fn find_bad(start: usize, digits: &[u8]) -> Option<usize>
    requires { start ≤ 1 }
    ensures { result ≡ bad_place start digits.now }
{
    if digits.is_empty() {
        return Some(start);
    }
    match find_no_digit(digits) {
        Some(k) => Some(start + k),
        None => None,
    }
}

// Whether no zero stands before another digit or after a minus.
fn has_one_spelling(minus: bool, digits: &[u8]) -> bool
    requires { 0 < length digits.now }
    ensures { result ≡ is_shortest minus digits.now }
{
    !(digits[0] == b'0' && (minus || digits.len() > 1))
}

// The number that digits write, where it fits.
fn magnitude(digits: &[u8]) -> Option<u128>
    requires { IsNumeral 10 digits.now }
    ensures { result ≡ (if nat_lt (digits_value 10 digits.now) (2 ^ 128) then Some (digits_value 10 digits.now) else None) }
{
    match str::from_utf8(digits) {
        Ok(text) => match text.parse::<u128>() {
            Ok(n) => Some(n),
            Err(_) => None,
        },
        Err(_) => unreachable!(),
    }
}

// The number with its sign, where it fits.
fn signed(minus: bool, n: u128) -> Option<i128>
    ensures { result ≡ (if is_narrow minus n then Some (with_sign minus n) else None) }
{
    const LIMIT: u128 = 0x8000_0000_0000_0000_0000_0000_0000_0000;
    if minus {
        if n > LIMIT {
            None
        } else if n == LIMIT {
            Some(i128::MIN)
        } else {
            Some(-(n as i128))
        }
    } else if n >= LIMIT {
        None
    } else {
        Some(n as i128)
    }
}

// The number that digits give after a minus or not, or its first fault.
fn read_digits(minus: bool, start: usize, digits: &[u8]) -> Result<i128, NumberFault>
    requires { start ≤ 1 }
    ensures { result ≡ digits_read minus start digits.now }
{
    if let Some(place) = find_bad(start, digits) {
        return Err(NumberFault::BadByte(place));
    }
    if !has_one_spelling(minus, digits) {
        return Err(NumberFault::NotShortest);
    }
    match magnitude(digits) {
        Some(n) => match signed(minus, n) {
            Some(number) => Ok(number),
            None => Err(NumberFault::TooWide),
        },
        None => Err(NumberFault::TooWide),
    }
}

/// The number that a text spells: an optional minus and digits, with no zero before another digit
/// and none after a minus. The faults are found in the order of `NumberFault`.
pub fn read_whole(bytes: &[u8]) -> Result<i128, NumberFault>
    ensures { result ≡ whole_of bytes.now }
{
    if bytes.is_empty() {
        return Err(NumberFault::Empty);
    }
    if bytes[0] == b'-' {
        read_digits(true, 1, &bytes[1..])
    } else {
        read_digits(false, 0, bytes)
    }
}
