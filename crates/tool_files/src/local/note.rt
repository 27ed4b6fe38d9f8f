// The note beside a part of a download: of which file it is, and how much of it.
ghost use Rattle.std.specs.Prelude.{◌≡◌, ◌≢◌, ◌++◌, IfOk, IfNone, IfSome, OnOk, Some, drop, take};
ghost use Rattle.ftp_facts.specs.Value.{number_value};
ghost use Rattle.tool_files.specs.local.Note.{field, note_text, note_value, number_line, numbers_of, zeros_padded};

use ftp_endpoint::number;
use itoa::Buffer;
use std::alloc::{AllocError, Global};

/// How many digits a number of a note has.
const DIGITS: usize = 18;

/// As many zeros.
const ZEROS: &[u8] = b"000000000000000000";

/// Where the second and the third number begin, and the place.
const SECOND: usize = 19;

const THIRD: usize = 38;

const PLACE: usize = 57;

/// What stands for the count of a part that grows still.
pub const GROWING: u64 = 999_999_999_999_999_999;

/// What a note says.
#[derive(Clone, Copy, PartialEq, Eq)]
pub struct Note {
    /// How many octets the file has at the server.
    pub size: u64,
    /// When it was changed there last, in seconds from the beginning of 1970.
    pub moment: u64,
    /// How many octets of it the part has, from its first on; `GROWING` while they come.
    pub count: u64,
}

/// What a note says of the file at a place; none where it is of another one, or is no note.
pub fn note_in(text: &[u8], place: &[u8]) -> Option<Note>
    ensures { result ≡ note_value text.now place.now }
{
    if behind(text, PLACE) != place {
        return None;
    }
    numbers_in(text)
}

fn numbers_in(text: &[u8]) -> Option<Note>
    ensures { result ≡ numbers_of text.now }
{
    let size = field(text, 0)?;
    let moment = field(text, SECOND)?;
    let count = field(text, THIRD)?;
    Some(Note {
        size,
        moment,
        count,
    })
}

/// The number of 18 digits that begins there.
fn field(text: &[u8], at: usize) -> Option<u64>
    ensures { result ≡ field at text.now }
{
    number_in(front(behind(text, at)))
}

/// The number that a text is: 1 to 18 digits.
#[tactic(auto, using(ftp_facts::proofs::NumberLemmas::no_number))]
fn number_in(text: &[u8]) -> Option<u64>
    ensures { result ≡ number_value text.now }
{
    match number(text) {
        Some(value) => Some(value),
        None => None,
    }
}

/// The first 18 octets, or all where there are fewer.
fn front(text: &[u8]) -> &[u8]
    ensures { result.now ≡ take 18 text.now }
{
    let (front, _) = text.split_at(DIGITS.min(text.len()));
    front
}

/// What stands behind so many octets.
fn behind(text: &[u8], count: usize) -> &[u8]
    ensures { result.now ≡ drop count text.now }
{
    let (_, rest) = text.split_at(count.min(text.len()));
    rest
}

/// The text of a note; none where it would not be read as that note, since a number has more than 18 digits.
pub fn note_of(
    alloc: Global,
    note: Note,
    place: &[u8],
) -> Result<Option<Vec<u8, Global>>, AllocError>
    // Witness of text: an equation of the text, where there is one.
    ensures text { IfOk result (λ text. IfSome text (λ text. text.items ≡ note_text note place.now)) }
    // Witness of read: `note_in`: what is written is read as the note that was given.
    ensures read { IfOk result (λ text. IfSome text (λ text. note_value text.items place.now ≡ Some note)) }
    // Witness of none: with `read` it says of each note whether there is a text.
    ensures none { IfOk result (λ text. IfNone text (note_value (note_text note place.now) place.now ≢ Some note)) }
{
    let text = text_of(alloc, note, place)?;
    Ok(read_back(text, note, place))
}

/// A text that is read as this note; none where it is not.
fn read_back(text: Vec<u8, Global>, note: Note, place: &[u8]) -> Option<Vec<u8, Global>>
    ensures text { IfSome result (λ found. found.items ≡ text.items) }
    ensures read { IfSome result (λ found. note_value found.items place.now ≡ Some note) }
    ensures none { IfNone result (note_value text.items place.now ≢ Some note) }
{
    if note_in(text.as_slice(), place) == Some(note) {
        Some(text)
    } else {
        None
    }
}

fn text_of(alloc: Global, note: Note, place: &[u8]) -> Result<Vec<u8, Global>, AllocError>
    ensures { IfOk result (λ text. text.items ≡ note_text note place.now) }
{
    let mut text = Vec::new(alloc);
    put_number(note.size, &mut text)?;
    put_number(note.moment, &mut text)?;
    put_number(note.count, &mut text)?;
    text.extend_from_slice(place)?;
    Ok(text)
}

/// Puts a number with zeros before it, and LF.
fn put_number(number: u64, text: &mut Vec<u8, Global>) -> Result<(), AllocError>
    ensures { OnOk result (text.new.items ≡ text.old.items ++ number_line number) }
{
    put_padded(ZEROS, Buffer::new().format(number).as_bytes(), text)
}

/// Puts digits with zeros before them, as many as these where there are not more digits, and LF.
fn put_padded(zeros: &[u8], digits: &[u8], text: &mut Vec<u8, Global>) -> Result<(), AllocError>
    ensures { OnOk result (text.new.items ≡ text.old.items ++ zeros_padded zeros.now digits.now) }
{
    let (_, left) = zeros.split_at(zeros.len().min(digits.len()));
    text.extend_from_slice(left)?;
    text.extend_from_slice(digits)?;
    text.extend_from_slice(b"\n")
}
