ghost use Rattle.std.specs.Prelude.{◌≡◌, ◌<◌, ◌≤◌, ◌^◌, length, MatchOption, IfSome, false, true};
ghost use Rattle.std.specs.List.{list_all};
ghost use Rattle.std.specs.Str.{bytes_eq};
ghost use Rattle.std.specs.Str.Parse.{digits_value};
ghost use Rattle.std.specs.Fmt.{decimal};
ghost use Rattle.cert_text.specs.Numbers.{number_of, number_up_to, signed_of, minus, plus, is_digit};
ghost use Rattle.cert_text.specs.Spelling.{small_number, value_of};

use itoa::Buffer;

/// The natural number that a field spells, of at most 25 digits and without a leading zero.
pub fn read_natural(field: &[u8]) -> Option<u128>
    ensures value { result ≡ number_of field.now }
    ensures small { IfSome result (λ n. n < 10 ^ 25) }
{
    if field.len() > 25 {
        return None;
    }
    match loose_value(field) {
        Some(number) => {
            if is_spelled(number, field) {
                Some(number)
            } else {
                None
            }
        }
        None => None,
    }
}

/// The whole number that a field spells; minus nothing is none.
pub fn read_whole(field: &[u8]) -> Option<i128>
    ensures { result ≡ signed_of field.now }
{
    match field.split_first() {
        None => None,
        Some((first, rest)) => {
            if *first == b'-' {
                negative(read_natural(rest))
            } else {
                positive(read_natural(field))
            }
        }
    }
}

/// The natural number of at most 200,000 that a field spells.
pub fn read_small(field: &[u8]) -> Option<u32>
    ensures { result ≡ small_number field.now }
{
    read_up_to(field, 200_000)
}

/// The natural number up to a limit that a field spells.
pub fn read_up_to(field: &[u8], limit: u32) -> Option<u32>
    ensures { result ≡ number_up_to limit field.now }
{
    match read_natural(field) {
        Some(number) if number <= u128::from(limit) => Some(number as u32),
        _ => None,
    }
}

/// The natural number below 2^63 that a field spells.
pub fn read_wide(field: &[u8]) -> Option<u64>
    ensures { result ≡ number_up_to 9223372036854775807 field.now }
{
    match read_natural(field) {
        Some(number) if number <= 9_223_372_036_854_775_807 => Some(number as u64),
        _ => None,
    }
}

/// The value of at most 10^12 in size that a field spells.
pub fn read_value(field: &[u8]) -> Option<i64>
    ensures { result ≡ value_of field.now }
{
    match read_whole(field) {
        Some(number) if number.unsigned_abs() <= 1_000_000_000_000 => Some(number as i64),
        _ => None,
    }
}

// Minus a number that is not 0.
fn negative(number: Option<u128>) -> Option<i128>
    requires { IfSome number (λ n. n < 10 ^ 25) }
    ensures { result ≡ minus number }
{
    match number {
        Some(n) if n > 0 => Some(-(n as i128)),
        _ => None,
    }
}

fn positive(number: Option<u128>) -> Option<i128>
    requires { IfSome number (λ n. n < 10 ^ 25) }
    ensures { result ≡ plus number }
{
    match number {
        Some(n) => Some(n as i128),
        None => None,
    }
}

fn loose_value(field: &[u8]) -> Option<u128>
    requires { length field.now ≤ 25 }
    ensures { MatchOption result (list_all is_digit field.now ≡ false) (λ n. (n ≡ digits_value 10 field.now) × (list_all is_digit field.now ≡ true) × (n < 10 ^ 25)) }
{
    let mut number: u128 = 0;
    for b in field {
        if !is_digit(*b) {
            return None;
        }
        number = number * 10 + u128::from(*b - b'0');
    }
    Some(number)
}

fn is_digit(b: u8) -> bool
    ensures { result ≡ is_digit b }
{
    b.is_ascii_digit()
}

fn is_spelled(number: u128, field: &[u8]) -> bool
    ensures { result ≡ bytes_eq field.now (decimal number) }
{
    let mut buffer = Buffer::new();
    field == buffer.format(number).as_bytes()
}
