// What OPTS chooses (RFC 2389, section 4; RFC 3659, section 7.9).
ghost use Rattle.std.specs.Prelude.{◌≡◌, ◌≤◌, length};
ghost use Rattle.std.specs.List.{position_or_len};
ghost use Rattle.ftp_command.specs.Argument.{argument, is_space, word};
ghost use Rattle.ftp_server_model.specs.Setting.{is_utf8_on};
ghost use Rattle.ftp_server_model.specs.Entries.{chosen_in, option_facts};

use ftp_facts::Facts;

/// The facts that the argument of OPTS chooses, if it is MLST and its argument can be read.
pub(crate) fn option_facts(text: &[u8]) -> Option<Facts>
    ensures { result ≡ option_facts text.now }
{
    let (word, argument) = cut_at_space(text);
    if word.eq_ignore_ascii_case(b"MLST") {
        chosen_facts(argument)
    } else {
        None
    }
}

/// Whether the argument of OPTS is UTF8 ON.
pub(crate) fn is_utf8_on(text: &[u8]) -> bool
    ensures { result ≡ is_utf8_on text.now }
{
    text.eq_ignore_ascii_case(b"UTF8 ON")
}

/// What stands before the first space of a text, and what behind it.
fn cut_at_space(text: &[u8]) -> (&[u8], &[u8])
    ensures word { result.0.now ≡ word text.now }
    ensures argument { result.1.now ≡ argument text.now }
{
    let at = first_space(text);
    let (word, rest) = text.split_at(at);
    let (_, argument) = rest.split_at(rest.len().min(1));
    (word, argument)
}

/// The place of the first space of a text, or its length where it has none.
fn first_space(text: &[u8]) -> usize
    ensures place { result ≡ position_or_len is_space text.now }
    ensures within { result ≤ length text.now }
{
    text.iter()
        .position(|octet| *octet == b' ')
        .unwrap_or(text.len())
}

/// The facts that a text chooses, each ended by a semicolon; those that are not known are passed over.
pub(crate) fn chosen_facts(text: &[u8]) -> Option<Facts>
    ensures { result ≡ chosen_in text.now }
{
    if text.is_empty() || text.ends_with(b";") {
        Some(Facts::named(text))
    } else {
        None
    }
}
