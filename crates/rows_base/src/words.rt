// The rows of a script, and the words of a line.
ghost use Rattle.std.specs.Prelude.{◌≤◌, length};

/// The lines before the first empty one, and what stands behind that.
pub fn row_in_front(script: &[u8]) -> (&[u8], &[u8]) {
    for at in 0..script.len() {
        let (row, rest) = script.split_at(at);
        if let [b'\n', b'\n', behind @ ..] = rest {
            return (row, behind);
        }
    }
    (script, b"")
}

/// The place of the first such octet, or how many there are.
fn place_of(text: &[u8], end: u8) -> usize
    ensures { result ≤ length text.now }
{
    for (at, octet) in text.iter().enumerate() {
        if *octet == end {
            return at;
        }
    }
    text.len()
}

/// A text up to the first such octet, and what stands behind that.
pub fn cut(text: &[u8], end: u8) -> (&[u8], &[u8]) {
    let (word, rest) = text.split_at(place_of(text, end));
    (word, behind_one(rest))
}

fn behind_one(text: &[u8]) -> &[u8] {
    match text {
        [_, rest @ ..] => rest,
        [] => text,
    }
}

/// A text up to its first space, and what stands behind that.
pub fn split(text: &[u8]) -> (&[u8], &[u8]) {
    cut(text, b' ')
}

/// The same, but what stands between double quotes is one word.
pub fn quoted(text: &[u8]) -> (&[u8], &[u8]) {
    match text {
        [b'"', inner @ ..] => {
            let (word, rest) = cut(inner, b'"');
            (word, behind_one(rest))
        }
        _ => split(text),
    }
}

/// What stands behind a word on the first line that begins with it; none where no line does.
pub fn said<'a>(row: &'a [u8], word: &[u8]) -> Option<&'a [u8]> {
    let mut rest = row;
    for _ in 0..row.len() {
        let (line, behind) = cut(rest, b'\n');
        let (first, value) = split(line);
        if first == word {
            return Some(value);
        }
        rest = behind;
    }
    None
}

/// What a table says of a word; the other where it has no such word.
pub fn found<V: Copy>(table: &[(&'static [u8], V)], word: &[u8], other: V) -> V {
    for row in table {
        if row.0 == word {
            return row.1;
        }
    }
    other
}

/// The first line of a text that is not that of another one; none where it goes on as that.
pub fn first_other<'a>(text: &'a [u8], whole: &[u8]) -> Option<&'a [u8]> {
    let mut rest = text;
    let mut wanted = whole;
    for _ in 0..text.len() {
        let (line, behind) = cut(rest, b'\n');
        let (line_wanted, wanted_behind) = cut(wanted, b'\n');
        if line != line_wanted {
            return Some(line);
        }
        rest = behind;
        wanted = wanted_behind;
    }
    None
}
