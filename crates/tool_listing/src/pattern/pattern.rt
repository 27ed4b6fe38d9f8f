// Which paths a pattern leaves out.
ghost use Rattle.std.specs.Prelude.{◌≡◌, ◌+◌, ◌<◌, ◌^◌, drop, length};
ghost use Rattle.std.specs.List.{list_any};
ghost use Rattle.tool_listing.specs.pattern.Pattern.{behind_slash, is_met, is_octet, is_floating, is_slash, matches, meet, some_rest};

/// Whether what has this path below the source, and this name, meets one of the patterns: the path where the pattern has a slash, and else the name.
pub fn is_excluded(patterns: &[&str], path: &[u8], name: &[u8]) -> bool
    ensures { result ≡ list_any (λ pattern. is_met path.now name.now pattern.now) patterns.now }
{
    patterns
        .iter()
        .any(|pattern| is_met(path, name, pattern.as_bytes()))
}

fn is_met(path: &[u8], name: &[u8], pattern: &[u8]) -> bool
    ensures { result ≡ is_met path.now name.now pattern.now }
{
    if has_slash(pattern) {
        matches(behind_slash(pattern), path)
    } else {
        matches(pattern, name)
    }
}

fn has_slash(pattern: &[u8]) -> bool
    ensures { result ≡ list_any is_slash pattern.now }
{
    pattern.iter().any(|octet| is_slash(*octet))
}

fn is_slash(octet: u8) -> bool
    ensures { result ≡ is_slash octet }
{
    octet == b'/'
}

fn behind_slash(pattern: &[u8]) -> &[u8]
    ensures { result.now ≡ behind_slash pattern.now }
{
    match pattern {
        [b'/', rest @ ..] => rest,
        _ => pattern,
    }
}

/// How the octets of a pattern before its first star stand to the front of a text.
#[derive(Clone, Copy)]
pub enum Meeting {
    /// They are other octets.
    Apart,
    /// The pattern has no star, and is the whole text.
    Whole,
    /// They are those of the text, and so many; a star comes next.
    Star(usize),
}

/// Whether a text is of a pattern: `*` is any octets but a slash, `?` is one, and any other octet is itself. It takes as many steps as the pattern is
/// long for each octet of the text, at most: behind a star that was reached, no star before it is gone back to.
pub fn matches(pattern: &[u8], text: &[u8]) -> bool
    ensures { result ≡ matches pattern.now text.now }
{
    match met(pattern, text) {
        Meeting::Whole => true,
        Meeting::Apart => false,
        Meeting::Star(count) => floats(past(past(pattern, count), 1), past(text, count)),
    }
}

/// Whether a text is of a pattern, or what is left of it behind octets that are no slash.
fn floats(pattern: &[u8], text: &[u8]) -> bool
    ensures { result ≡ some_rest (matches pattern.now) text.now }
{
    let mut wanted = pattern;
    let mut left = text;
    loop {
        match met(wanted, left) {
            Meeting::Whole => return true,
            Meeting::Star(count) => {
                wanted = past(past(wanted, count), 1);
                left = past(left, count);
            }
            Meeting::Apart if is_floating(left) => left = past(left, 1),
            Meeting::Apart => return false,
        }
    }
}

/// Whether a text has a first octet, and that is no slash.
fn is_floating(text: &[u8]) -> bool
    ensures { result ≡ is_floating text.now }
{
    match text {
        [first, ..] => !is_slash(*first),
        [] => false,
    }
}

/// What is left of octets behind so many.
fn past(octets: &[u8], count: usize) -> &[u8]
    ensures { result.now ≡ drop count octets.now }
{
    octets.get(count..).unwrap_or(&[])
}

/// How the octets of a pattern before its first star stand to the front of a text.
fn met(pattern: &[u8], text: &[u8]) -> Meeting
    ensures { result ≡ meet 0 pattern.now text.now }
{
    let _length = pattern.len();
    meet(pattern, text, 0)
}

/// The same of a pattern and a text before which so many octets of both were met.
fn meet(pattern: &[u8], text: &[u8], met: usize) -> Meeting
    requires { met + length pattern.now < 2 ^ 64 }
    ensures { result ≡ meet met pattern.now text.now }
{
    match (pattern, text) {
        ([], []) => Meeting::Whole,
        ([], _) => Meeting::Apart,
        ([b'*', ..], _) => Meeting::Star(met),
        ([first, rest @ ..], [octet, behind @ ..]) if is_octet(*first, *octet) => {
            meet(rest, behind, met + 1)
        }
        _ => Meeting::Apart,
    }
}

fn is_octet(wanted: u8, octet: u8) -> bool
    ensures { result ≡ is_octet wanted octet }
{
    wanted == octet || (wanted == b'?' && !is_slash(octet))
}
