// Lines of LIST in the columns of `ls -l` (RFC 959, section 4.1.3, leaves the form open).
ghost use Rattle.std.specs.Prelude.{◌≡◌, ◌==◌, ◌≤◌, IfSome, length, option_map, take};
ghost use Rattle.std.specs.Char.{is_ascii_digit};
ghost use Rattle.std.specs.List.{list_all, list_any, position_or_len, prefix_len};
ghost use Rattle.std.specs.Option.{ForSome};
ghost use Rattle.ftp_endpoint.specs.Number.{IsShort};
ghost use Rattle.ftp_facts.specs.Moment.{two_digits};
ghost use Rattle.ftp_facts.specs.Value.{number_value};
ghost use Rattle.tool_listing.specs.entries.UnixLine.{before_arrow, begins_at, behind_column, behind_day, behind_one, behind_rights, behind_size};
ghost use Rattle.tool_listing.specs.entries.UnixLine.{date_value, day_value, first_column, is_blank, is_right, is_time, kind_value, month_value, name_in};
ghost use Rattle.tool_listing.specs.entries.UnixLine.{rights_value, told, unix_value};

use crate::entries::unix_entry::{UnixKind, UnixLine};
use ftp_endpoint::number;
use ftp_facts::{Moment, moment_of_text};

/// Reads a line, without its end: rights, links, owner, group, size, month, day, year or time of day, and behind one space the name. None where it is not of
/// that form, as the line `total 12`.
pub fn read_unix_line(line: &[u8]) -> Option<UnixLine<'_>>
    // Witness: an equation; `edits/the_arrow_of_a_link_is_its_name`.
    ensures { option_map told result ≡ unix_value line.now }
{
    let (rights, rest) = cut_column(line);
    let Some(kind) = kind_of(rights) else {
        return None;
    };
    behind_rights(kind, rest)
}

fn behind_rights(kind: UnixKind, rest: &[u8]) -> Option<UnixLine<'_>>
    ensures { option_map told result ≡ behind_rights kind rest.now }
{
    let (links, rest) = cut_column(rest);
    let Some(_links) = number_in(links) else {
        return None;
    };
    let (_owner, rest) = cut_column(rest);
    let (_group, rest) = cut_column(rest);
    let (size, rest) = cut_column(rest);
    let Some(size) = number_in(size) else {
        return None;
    };
    behind_size(kind, size, rest)
}

fn behind_size(kind: UnixKind, size: u64, rest: &[u8]) -> Option<UnixLine<'_>>
    requires { IsShort size }
    ensures { option_map told result ≡ behind_size kind size rest.now }
{
    let (month, rest) = cut_column(rest);
    let Some(month) = month_of(month) else {
        return None;
    };
    let (day, rest) = cut_column(rest);
    let Some(day) = day_of(day) else {
        return None;
    };
    behind_day(kind, size, month, day, rest)
}

fn behind_day(kind: UnixKind, size: u64, month: u64, day: u64, rest: &[u8]) -> Option<UnixLine<'_>>
    requires few { (month ≤ 12) × (day ≤ 99) }
    requires short { IsShort size }
    ensures { option_map told result ≡ behind_day kind size month day rest.now }
{
    let (year, name) = cut_one(rest);
    let name = name_in(kind, name);
    if name.is_empty() {
        return None;
    }
    let Some(day) = date_of(month, day, year) else {
        return None;
    };
    Some(UnixLine {
        kind,
        size,
        day,
        name,
    })
}

/// The first column, and what stands behind it and the spaces that follow.
fn cut_column(line: &[u8]) -> (&[u8], &[u8])
    ensures first { result.0.now ≡ first_column line.now }
    ensures behind { result.1.now ≡ behind_column line.now }
{
    let (first, rest) = cut_one(line);
    let (_, behind) = rest.split_at(blanks_in_front(rest));
    (first, behind)
}

/// The first column, and what stands behind one space.
pub(crate) fn cut_one(line: &[u8]) -> (&[u8], &[u8])
    ensures first { result.0.now ≡ first_column line.now }
    ensures behind { result.1.now ≡ behind_one line.now }
{
    let at = first_blank(line);
    let (first, _) = line.split_at(at);
    if at < line.len() {
        let (_, behind) = line.split_at(at + 1);
        (first, behind)
    } else {
        let (_, behind) = line.split_at(at);
        (first, behind)
    }
}

/// Where the first space stands, or the length.
fn first_blank(text: &[u8]) -> usize
    ensures place { result ≡ position_or_len is_blank text.now }
    ensures within { result ≤ length text.now }
{
    text.iter()
        .position(|octet| *octet == b' ')
        .unwrap_or(text.len())
}

/// How many spaces stand in front.
fn blanks_in_front(text: &[u8]) -> usize
    ensures count { result ≡ prefix_len is_blank text.now }
    ensures within { result ≤ length text.now }
{
    text.iter()
        .position(|octet| *octet != b' ')
        .unwrap_or(text.len())
}

/// The kind that rights begin with.
fn kind_of(rights: &[u8]) -> Option<UnixKind>
    ensures { result ≡ rights_value rights.now }
{
    let [letter, rest @ ..] = rights else {
        return None;
    };
    if rest.len() != 9 && rest.len() != 10 {
        return None;
    }
    let (nine, _) = rest.split_at(9);
    if are_rights(nine) {
        kind_by(*letter)
    } else {
        None
    }
}

fn are_rights(letters: &[u8]) -> bool
    ensures { result ≡ list_all is_right letters.now }
{
    letters.iter().all(|letter| is_right(*letter))
}

fn is_right(letter: u8) -> bool
    ensures { result ≡ is_right letter }
{
    stands_in(b"rwxsStTlL-", letter)
}

/// Whether a letter is one of these.
fn stands_in(letters: &[u8], letter: u8) -> bool
    ensures { result ≡ list_any (λ other. other == letter) letters.now }
{
    letters.iter().any(|other| *other == letter)
}

fn kind_by(letter: u8) -> Option<UnixKind>
    ensures { result ≡ kind_value letter }
{
    if letter == b'-' {
        Some(UnixKind::File)
    } else if letter == b'd' {
        Some(UnixKind::Dir)
    } else if letter == b'l' {
        Some(UnixKind::Link)
    } else if stands_in(b"bcps", letter) {
        Some(UnixKind::Other)
    } else {
        None
    }
}

/// The number of a month.
fn month_of(word: &[u8]) -> Option<u64>
    ensures value { result ≡ month_value word.now }
    ensures few { ForSome result (λ month. month ≤ 12) }
{
    if word == b"Jan".as_slice() {
        Some(1)
    } else if word == b"Feb".as_slice() {
        Some(2)
    } else if word == b"Mar".as_slice() {
        Some(3)
    } else if word == b"Apr".as_slice() {
        Some(4)
    } else if word == b"May".as_slice() {
        Some(5)
    } else if word == b"Jun".as_slice() {
        Some(6)
    } else if word == b"Jul".as_slice() {
        Some(7)
    } else if word == b"Aug".as_slice() {
        Some(8)
    } else if word == b"Sep".as_slice() {
        Some(9)
    } else if word == b"Oct".as_slice() {
        Some(10)
    } else if word == b"Nov".as_slice() {
        Some(11)
    } else if word == b"Dec".as_slice() {
        Some(12)
    } else {
        None
    }
}

/// The day of a month: one digit or two.
fn day_of(text: &[u8]) -> Option<u64>
    ensures value { result ≡ day_value text.now }
    ensures few { ForSome result (λ day. day ≤ 99) }
{
    if text.len() > 2 {
        return None;
    }
    number_in(text)
}

/// The number that a text is: 1 to 18 digits.
#[tactic(auto, using(ftp_facts::proofs::NumberLemmas::no_number))]
fn number_in(text: &[u8]) -> Option<u64>
    ensures value { result ≡ number_value text.now }
    ensures short { IfSome result IsShort }
{
    match number(text) {
        Some(value) => Some(value),
        None => None,
    }
}

/// The day of a month and a year; none in it where there is a time of day in place of the year.
fn date_of(month: u64, day: u64, year: &[u8]) -> Option<Option<Moment>>
    requires { (month ≤ 12) × (day ≤ 99) }
    ensures { option_map (λ date. option_map (λ day. day.seconds) date) result ≡ date_value month day year.now }
{
    if is_time(year) {
        return Some(None);
    }
    match begin_of(month, day, year) {
        Some(day) => Some(Some(day)),
        None => None,
    }
}

/// The moment at which a day begins, in UTC.
fn begin_of(month: u64, day: u64, year: &[u8]) -> Option<Moment>
    requires { (month ≤ 12) × (day ≤ 99) }
    ensures { option_map (λ moment. moment.seconds) result ≡ begins_at year.now month day }
{
    let [a, b, c, d] = year else {
        return None;
    };
    let [e, f] = two(month);
    let [g, h] = two(day);
    let digits = [
        *a, *b, *c, *d, e, f, g, h, b'0', b'0', b'0', b'0', b'0', b'0',
    ];
    moment_of_text(&digits).ok()
}

/// The two digits of a number below 100.
fn two(number: u64) -> [u8; 2]
    requires { number ≤ 99 }
    ensures { result ≡ two_digits number }
{
    [b'0' + (number / 10) as u8, b'0' + (number % 10) as u8]
}

/// Whether it is a time of day, as `7:05` or `07:05`.
fn is_time(text: &[u8]) -> bool
    ensures { result ≡ is_time text.now }
{
    match text {
        [a, sign, b, c] => *sign == b':' && are_digits(&[*a, *b, *c]),
        [a, b, sign, c, d] => *sign == b':' && are_digits(&[*a, *b, *c, *d]),
        _ => false,
    }
}

fn are_digits(octets: &[u8]) -> bool
    ensures { result ≡ list_all is_ascii_digit octets.now }
{
    octets.iter().all(|octet| octet.is_ascii_digit())
}

/// The name; behind that of a link stand an arrow and where it leads.
fn name_in(kind: UnixKind, name: &[u8]) -> &[u8]
    ensures { result.now ≡ name_in kind name.now }
{
    match kind {
        UnixKind::Link => {
            let (front, _) = name.split_at(arrow_in(name));
            front
        }
        UnixKind::File | UnixKind::Dir | UnixKind::Other => name,
    }
}

/// Where the first arrow stands, or the length.
fn arrow_in(name: &[u8]) -> usize
    ensures front { take result name.now ≡ before_arrow name.now }
    ensures within { result ≤ length name.now }
{
    for place in 0..name.len() {
        let (_, rest) = name.split_at(place);
        if rest.starts_with(b" -> ") {
            return place;
        }
    }
    name.len()
}
