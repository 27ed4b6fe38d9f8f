//! Numbers of two and four digits at the front of a text.
ghost use Rattle.std.specs.Prelude.{◌≡◌, ◌≢◌, ℕ, List, [], ◌∷◌, ◌++◌, ◌<◌, IfSome, IfNone};
ghost use Rattle.std.specs.Char.{is_ascii_digit};
ghost use Rattle.std.specs.List.{list_all};
ghost use Rattle.ftp_facts.specs.Moment.{two_digits, four_digits};
ghost use Rattle.ftp_facts.specs.Moment as spec;

/// The number of the two digits at the front of the text, and the rest.
pub fn read_two(text: &[u8]) -> Option<(u8, &[u8])>
    // Witness: caller: `moment_of_text`, `value`.
    ensures bound { IfSome result (λ read. read.0 < 100) }
    ensures some { IfSome result (λ read. text.now ≡ two_digits read.0 ++ read.1.now) }
    ensures none { IfNone result ((n : ℕ) (rest : List ℕ) → n < 100 → text.now ≢ two_digits n ++ rest) }
{
    match text {
        [tens @ b'0'..=b'9', ones @ b'0'..=b'9', rest @ ..] => {
            Some(((*tens - b'0') * 10 + (*ones - b'0'), rest))
        }
        _ => None,
    }
}

/// The number of the four digits at the front of the text, and the rest.
pub fn read_four(text: &[u8]) -> Option<(u16, &[u8])>
    // Witness: caller: `moment_of_text`, `value`.
    ensures bound { IfSome result (λ read. read.0 < 10_000) }
    ensures some { IfSome result (λ read. text.now ≡ four_digits read.0 ++ read.1.now) }
    ensures none { IfNone result ((n : ℕ) (rest : List ℕ) → n < 10_000 → text.now ≢ four_digits n ++ rest) }
{
    let (high, text) = read_two(text)?;
    let (low, text) = read_two(text)?;
    Some((high as u16 * 100 + low as u16, text))
}

/// A number below 100 in two digits.
pub fn two(n: u8) -> [u8; 2]
    requires { n < 100 }
    // Witness: equation; caller: `moment_text`, `digits`.
    ensures { result ≡ two_digits n }
{
    [b'0' + n / 10, b'0' + n % 10]
}

/// Whether the text is nothing, or `.` and one or more digits.
pub fn is_fraction(text: &[u8]) -> bool
    // Witness: equation; caller: `moment_of_text`, `value`.
    ensures { result ≡ spec.is_fraction text.now }
{
    match text {
        [] => true,
        [b'.', digits @ ..] => !digits.is_empty() && are_digits(digits),
        _ => false,
    }
}

fn are_digits(text: &[u8]) -> bool
    ensures { result ≡ list_all is_ascii_digit text.now }
{
    text.iter().all(|octet| octet.is_ascii_digit())
}
