// Decimal numbers, as arguments and replies have them.
ghost use Rattle.std.specs.Prelude.{◌≡◌, ◌+◌, ◌*◌, ◌<◌, ◌≤◌, IfSome, IfNone, length, take};
ghost use Rattle.std.specs.Char.{is_ascii_digit};
ghost use Rattle.std.specs.List.{prefix_len};
ghost use Rattle.std.specs.Option.{SomeIff};
ghost use Rattle.std.specs.Str.Parse.{AllDigits, IsNumeral, digits_value};
ghost use Rattle.ftp_endpoint.specs.Number.{IsNumber, IsOctet, IsPort, IsShort, SaysOctet, behind_digits, digit_limit, front_digits};

/// The most digits that a number has (own choice).
pub const DIGIT_LIMIT: usize = 18;

/// A number below it has at most that many digits.
pub const NUMBER_LIMIT: u64 = 1_000_000_000_000_000_000;

/// The decimal digits that a text begins with, as many as stand there, and what is behind them.
pub fn split_digits(text: &[u8]) -> (&[u8], &[u8])
    ensures front { result.0.now ≡ front_digits text.now }
    ensures behind { result.1.now ≡ behind_digits text.now }
{
    text.split_at(digits_in_front(text))
}

// How many decimal digits a text begins with.
fn digits_in_front(text: &[u8]) -> usize
    ensures count { result ≡ prefix_len is_ascii_digit text.now }
    ensures within { result ≤ length text.now }
{
    for (i, c) in text.iter().enumerate() {
        if !c.is_ascii_digit() {
            return i;
        }
    }
    text.len()
}

/// Reads a number of 1 to 18 decimal digits, leading zeros too.
pub fn number(text: &[u8]) -> Option<u64>
    // Witness of says: equation (`SomeIff`: the value, and just where there is one).
    ensures says { SomeIff result (IsNumber text.now) (digits_value 10 text.now) }
    // Witness of bound: follows from says; caller: `read` of `ftp_command`, whose numbers have a line (`only_stated`).
    ensures bound { IfSome result (λ n. IsShort n) }
{
    if text.is_empty() || text.len() > DIGIT_LIMIT {
        return None;
    }
    value(text)
}

// The number that decimal digits write.
fn value(text: &[u8]) -> Option<u64>
    requires { length text.now ≤ digit_limit }
    ensures says { SomeIff result (AllDigits 10 text.now) (digits_value 10 text.now) }
    ensures bound { IfSome result (λ n. IsShort n) }
{
    let mut value = 0u64;
    for c in text {
        if !c.is_ascii_digit() {
            return None;
        }
        value = 10 * value + u64::from(*c - b'0');
    }
    Some(value)
}

/// Reads an octet's number: one to three decimal digits, 0 to 255.
pub fn octet(text: &[u8]) -> Option<u8>
    // Witness: equation (`SomeIff`).
    ensures { SomeIff result (IsOctet text.now) (digits_value 10 text.now) }
{
    if text.len() > 3 {
        return None;
    }
    match number(text) {
        Some(value) if value <= 255 => Some(value as u8),
        _ => None,
    }
}

/// Reads a port: a number of 1 to 18 decimal digits, 1 to 65535.
pub fn port(text: &[u8]) -> Option<u16>
    // Witness: equation (`SomeIff`).
    ensures { SomeIff result (IsPort text.now) (digits_value 10 text.now) }
{
    match number(text) {
        Some(value) if 0 < value && value <= 65535 => Some(value as u16),
        _ => None,
    }
}

/// Reads the octet's number that a whole run of digits in front is, and what is behind it.
pub fn octet_in_front(text: &[u8]) -> Option<(u8, &[u8])>
    // Witness: equation: `SaysOctet` gives the number, and what is after is a function of the text.
    ensures some { IfSome result (λ r. SaysOctet (front_digits text.now) r.0 × (r.1.now ≡ behind_digits text.now)) }
    ensures none { IfNone result (¬ IsOctet (front_digits text.now)) }
{
    let (digits, behind) = split_digits(text);
    let value = octet(digits)?;
    Some((value, behind))
}
