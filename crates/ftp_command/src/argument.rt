// The parts of a line, and the texts that arguments are.
ghost use Rattle.std.specs.Prelude.{◌≡◌, ◌↔◌, ◌≤◌, IsTrue, length, take, not};
ghost use Rattle.std.specs.List.{list_all, position_or_len, prefix_len};
ghost use Rattle.ftp_command.specs.Argument.{IsBlank, IsName, IsPassword, argument, begins_with, behind_word, hyphen, is_space, trimmed, without_options, word};

use ftp_path::{LOGIN_LIMIT, are_login_octets};

/// Cuts a line at its first SP: the word, and the argument, which is empty where there is no SP.
pub(crate) fn split_line(line: &[u8]) -> (&[u8], &[u8])
    ensures word { result.0.now ≡ word line.now }
    ensures argument { result.1.now ≡ argument line.now }
{
    let at = first_space(line);
    let (word, _) = line.split_at(at);
    if at < line.len() {
        let (_, argument) = line.split_at(at + 1);
        (word, argument)
    } else {
        let (_, argument) = line.split_at(at);
        (word, argument)
    }
}

// Where the first space stands, or the length.
fn first_space(text: &[u8]) -> usize
    ensures place { result ≡ position_or_len is_space text.now }
    ensures within { result ≤ length text.now }
{
    for (i, c) in text.iter().enumerate() {
        if *c == b' ' {
            return i;
        }
    }
    text.len()
}

// How many spaces stand in front.
fn spaces_in_front(text: &[u8]) -> usize
    ensures count { result ≡ prefix_len is_space text.now }
    ensures within { result ≤ length text.now }
{
    for (i, c) in text.iter().enumerate() {
        if *c != b' ' {
            return i;
        }
    }
    text.len()
}

/// Whether there is nothing but spaces.
pub(crate) fn is_blank(text: &[u8]) -> bool
    ensures { IsTrue result ↔ IsBlank text.now }
{
    are_spaces(text)
}

fn are_spaces(text: &[u8]) -> bool
    ensures { result ≡ list_all is_space text.now }
{
    text.iter().all(|c| *c == b' ')
}

/// Drops the spaces at the end.
pub(crate) fn trim(text: &[u8]) -> &[u8]
    ensures { result.now ≡ trimmed text.now }
{
    let (front, _) = text.split_at(trimmed_len(text));
    front
}

fn trimmed_len(text: &[u8]) -> usize
    ensures front { take result text.now ≡ trimmed text.now }
    ensures within { result ≤ length text.now }
{
    let mut end = text.len();
    while 0 < end && text[end - 1] == b' ' {
        end -= 1;
    }
    end
}

/// Whether a text is a password: at most 255 octets, none of them CR, LF or NUL.
pub(crate) fn is_password(text: &[u8]) -> bool
    ensures { IsTrue result ↔ IsPassword text.now }
{
    text.len() <= LOGIN_LIMIT && are_login_octets(text)
}

/// Whether a text is a user name: 1 to 255 octets, none of them CR, LF or NUL.
pub(crate) fn is_name(text: &[u8]) -> bool
    ensures { IsTrue result ↔ IsName text.now }
{
    !text.is_empty() && is_password(text)
}

/// Drops all leading words that begin with `-`, each with the spaces after it.
pub(crate) fn drop_options(text: &[u8]) -> &[u8]
    ensures { result.now ≡ without_options text.now }
{
    let mut rest = text;
    while begins_option(rest) {
        rest = drop_word(rest);
    }
    rest
}

pub(crate) fn begins_option(text: &[u8]) -> bool
    ensures { result ≡ begins_with hyphen text.now }
{
    match text {
        [first, ..] => *first == b'-',
        [] => false,
    }
}

// What is behind the first word and the spaces after it.
fn drop_word(text: &[u8]) -> &[u8]
    ensures { result.now ≡ behind_word text.now }
{
    let (_, rest) = text.split_at(first_space(text));
    let (_, rest) = rest.split_at(spaces_in_front(rest));
    rest
}
