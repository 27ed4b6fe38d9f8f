// Amounts of octets and of files, as words of a command line say them.
ghost use Rattle.std.specs.Prelude.{◌≡◌, ◌≢◌, ◌<◌, ◌^◌, ◌++◌, ◌∷◌, [], ℕ, List, IfSome, IfNone, MatchOption};
ghost use Rattle.std.specs.Option.{SomeIff};
ghost use Rattle.std.specs.Str.Parse.{IsNumeral, digits_value};
ghost use Rattle.tool_command.specs.Amount.{EndsInUnit, SaysAmount, SaysMost, SaysTimes};

/// A decimal number below 2^64, as it is written: digits alone, leading zeros read, no sign.
pub(crate) fn octets_of(text: &str) -> Option<u64>
    ensures { SomeIff result
        (IsNumeral 10 text.now × (digits_value 10 text.now < 2 ^ 64)) (digits_value 10 text.now) }
{
    if text.starts_with('+') {
        return None;
    }
    text.parse::<u64>().ok()
}

/// A decimal number, so many times as much, below 2^64.
fn times(digits: &str, unit: u64) -> Option<u64>
    requires { 0 < unit }
    ensures some { IfSome result (λ n. SaysTimes unit digits.now n) }
    ensures none { IfNone result ((n : ℕ) → ¬ SaysTimes unit digits.now n) }
{
    let Some(number) = octets_of(digits) else {
        return None;
    };
    number.checked_mul(unit)
}

/// What stands before a letter at the end of a word.
fn before(word: &str, letter: char) -> Option<&str>
    requires { letter < 128 }
    ensures { MatchOption result
        ((front : List ℕ) → word.now ≢ front ++ (letter ∷ []))
        (λ front. word.now ≡ front.now ++ (letter ∷ [])) }
{
    word.strip_suffix(letter)
}

/// The digits before the letter of a power of 1,024 at the end of a word, and that power; none where it ends in no such letter.
fn unit_ending(word: &str) -> Option<(&str, u64)>
    ensures some { IfSome result (λ ending. EndsInUnit word.now ending.0.now ending.1) }
    ensures above { IfSome result (λ ending. 0 < ending.1) }
    ensures none { IfNone result ((digits : List ℕ) (unit : ℕ)
        → ¬ EndsInUnit word.now digits unit) }
{
    if let Some(digits) = before(word, 'K') {
        return Some((digits, 1_024));
    }
    if let Some(digits) = before(word, 'M') {
        return Some((digits, 1_048_576));
    }
    if let Some(digits) = before(word, 'G') {
        return Some((digits, 1_073_741_824));
    }
    let digits = before(word, 'T')?;
    Some((digits, 1_099_511_627_776))
}

/// A number, or one with K, M, G or T after it, which are powers of 1,024; below 2^64.
pub(crate) fn amount_of(word: &str) -> Option<u64>
    ensures some { IfSome result (λ n. SaysAmount word.now n) }
    ensures none { IfNone result ((n : ℕ) → ¬ SaysAmount word.now n) }
{
    match unit_ending(word) {
        Some((digits, unit)) => times(digits, unit),
        None => times(word, 1),
    }
}

/// An amount, or `any`, which is the largest number.
pub(crate) fn most_of(word: &str) -> Option<u64>
    ensures some { IfSome result (λ n. SaysMost word.now n) }
    ensures none { IfNone result ((n : ℕ) → ¬ SaysMost word.now n) }
{
    if word == "any" {
        return Some(u64::MAX);
    }
    amount_of(word)
}
