// How the octets of a `.netrc` are words: a table of where they stand.
ghost use Rattle.std.specs.Prelude.{◌≡◌};
ghost use Rattle.tool_login.specs.Spot.{between, escaped, in_quotes, in_word, is_blank, macro_behind, turn, unescaped};

/// Where the next octet stands.
#[derive(Clone, Copy)]
pub(crate) enum WordPosition {
    /// Before the first word of a line.
    LineStart,
    /// Before another word.
    Between,
    Word,
    /// In a word in quotes.
    Quoted,
    /// There, behind a backslash.
    Escaped,
    Comment,
    /// In a line of a macro.
    Macro,
    /// At its beginning.
    MacroStart,
    /// Behind a word in quotes that did not end on its line.
    Torn,
}

/// What an octet does.
#[derive(Clone, Copy)]
pub(crate) enum WordAction {
    Nothing,
    /// This octet is of the word.
    Keep(u8),
    /// The word ends.
    End,
}

/// Where an octet leads to, and what it does.
pub(crate) fn turn(spot: WordPosition, octet: u8) -> (WordPosition, WordAction)
    ensures { result ≡ turn spot octet }
{
    match spot {
        WordPosition::LineStart if octet == b'#' => (WordPosition::Comment, WordAction::Nothing),
        WordPosition::LineStart => between(WordPosition::LineStart, octet),
        WordPosition::Between => between(WordPosition::Between, octet),
        WordPosition::Word => in_word(octet),
        WordPosition::Quoted => in_quotes(octet),
        WordPosition::Escaped => escaped(octet),
        WordPosition::Comment if octet == b'\n' => (WordPosition::LineStart, WordAction::Nothing),
        WordPosition::Comment => (WordPosition::Comment, WordAction::Nothing),
        WordPosition::Macro if octet == b'\n' => (WordPosition::MacroStart, WordAction::Nothing),
        WordPosition::Macro => (WordPosition::Macro, WordAction::Nothing),
        WordPosition::MacroStart if octet == b'\n' => (
            WordPosition::LineStart,
            WordAction::Nothing,
        ),
        WordPosition::MacroStart if octet == b'\r' => (
            WordPosition::MacroStart,
            WordAction::Nothing,
        ),
        WordPosition::MacroStart => (WordPosition::Macro, WordAction::Nothing),
        WordPosition::Torn => (WordPosition::Torn, WordAction::Nothing),
    }
}

fn between(spot: WordPosition, octet: u8) -> (WordPosition, WordAction)
    ensures { result ≡ between spot octet }
{
    if octet == b'\n' {
        (WordPosition::LineStart, WordAction::Nothing)
    } else if is_blank(octet) {
        (spot, WordAction::Nothing)
    } else if octet == b'"' {
        (WordPosition::Quoted, WordAction::Nothing)
    } else {
        (WordPosition::Word, WordAction::Keep(octet))
    }
}

fn in_word(octet: u8) -> (WordPosition, WordAction)
    ensures { result ≡ in_word octet }
{
    if octet == b'\n' {
        (WordPosition::LineStart, WordAction::End)
    } else if is_blank(octet) {
        (WordPosition::Between, WordAction::End)
    } else {
        (WordPosition::Word, WordAction::Keep(octet))
    }
}

fn in_quotes(octet: u8) -> (WordPosition, WordAction)
    ensures { result ≡ in_quotes octet }
{
    if octet == b'"' {
        (WordPosition::Between, WordAction::End)
    } else if octet == b'\\' {
        (WordPosition::Escaped, WordAction::Nothing)
    } else if octet == b'\n' {
        (WordPosition::Torn, WordAction::Nothing)
    } else {
        (WordPosition::Quoted, WordAction::Keep(octet))
    }
}

fn escaped(octet: u8) -> (WordPosition, WordAction)
    ensures { result ≡ escaped octet }
{
    if octet == b'\n' {
        (WordPosition::Torn, WordAction::Nothing)
    } else {
        (WordPosition::Quoted, WordAction::Keep(unescaped(octet)))
    }
}

/// What a backslash and this octet stand for.
fn unescaped(octet: u8) -> u8
    ensures { result ≡ unescaped octet }
{
    if octet == b'n' {
        b'\n'
    } else if octet == b'r' {
        b'\r'
    } else if octet == b't' {
        b'\t'
    } else {
        octet
    }
}

fn is_blank(octet: u8) -> bool
    ensures { result ≡ is_blank octet }
{
    octet == b' ' || octet == b'\t' || octet == b'\r'
}

/// Where the word leads to that begins a macro.
pub(crate) fn macro_behind(spot: WordPosition) -> WordPosition
    ensures { result ≡ macro_behind spot }
{
    match spot {
        WordPosition::LineStart => WordPosition::MacroStart,
        _ => WordPosition::Macro,
    }
}
