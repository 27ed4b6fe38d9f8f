// The lines of LIST, as many clients read them (RFC 959, section 4.1.3; the form is an own choice).
ghost use Rattle.std.specs.Prelude.{◌≡◌, ◌≤◌, ◌+◌, ◌-◌, ◌*◌, ◌++◌, [], OnOk, codes, length};
ghost use Rattle.ftp_direct.specs.Listing.{date_text, list_line, month_word, right_in};

use ftp_facts::{Moment, moment_text};
use itoa::Buffer;
use std::alloc::{AllocError, Allocator};

/// The months in three letters each.
const MONTHS: &[u8] = b"JanFebMarAprMayJunJulAugSepOctNovDec";

/// The letters of a month's word.
const WORD_LEN: usize = 3;

/// Puts the line of a file behind what `out` holds. Refused memory leaves some of it there.
pub fn put_file_line<A: Allocator + Copy>(
    name: &[u8],
    size: u64,
    moment: Moment,
    out: &mut Vec<u8, A>,
) -> Result<(), AllocError>
    // Witness of line: equations, of what is left where memory was not refused.
    ensures line { OnOk result (out.new.items ≡ out.old.items ++ list_line (codes "-rw-r--r--") size moment.seconds name.now) }
    // Witness of few: the ghost fields of `Listing` of `ftp_server_transfer` need it.
    ensures few { OnOk result (length out.new.items ≤ length out.old.items + (100 + length name.now)) }
{
    out.extend_from_slice(b"-rw-r--r--")?;
    put_columns(name, size, moment, out)?;
    Ok(())
}

/// Puts the line of a directory. It has no date of its own, and shows the first of January 1970 (own choice).
pub fn put_dir_line<A: Allocator + Copy>(
    name: &[u8],
    out: &mut Vec<u8, A>,
) -> Result<(), AllocError>
    // Witness of line: equations, of what is left where memory was not refused.
    ensures line { OnOk result (out.new.items ≡ out.old.items ++ list_line (codes "drwxr-xr-x") 0 0 name.now) }
    // Witness of few: as of `put_file_line`.
    ensures few { OnOk result (length out.new.items ≤ length out.old.items + (100 + length name.now)) }
{
    out.extend_from_slice(b"drwxr-xr-x")?;
    put_columns(name, 0, Moment { seconds: 0 }, out)?;
    Ok(())
}

/// Puts what a line has behind its rights: the owner, the size in ten places, the date and the name.
fn put_columns<A: Allocator + Copy>(
    name: &[u8],
    size: u64,
    moment: Moment,
    out: &mut Vec<u8, A>,
) -> Result<(), AllocError>
    ensures { OnOk result (out.new.items ≡ out.old.items ++ list_line [] size moment.seconds name.now) }
{
    out.extend_from_slice(b" 1 ftp ftp ")?;
    put_right(10, Buffer::new().format(size).as_bytes(), out)?;
    put_date(moment, out)?;
    out.extend_from_slice(b" ")?;
    out.extend_from_slice(name)?;
    Ok(())
}

/// Puts a text with spaces before it, as wide as this.
fn put_right<A: Allocator + Copy>(
    width: usize,
    text: &[u8],
    out: &mut Vec<u8, A>,
) -> Result<(), AllocError>
    ensures { OnOk result (out.new.items ≡ out.old.items ++ right_in width text.now) }
{
    for _ in 0..width.saturating_sub(text.len()) {
        out.push(b' ')?;
    }
    out.extend_from_slice(text)?;
    Ok(())
}

/// Puts the date of a moment, in UTC.
fn put_date<A: Allocator + Copy>(moment: Moment, out: &mut Vec<u8, A>) -> Result<(), AllocError>
    ensures { OnOk result (out.new.items ≡ out.old.items ++ date_text moment.seconds) }
{
    let digits = moment_text(moment);
    let mut buffer = Buffer::new();
    out.extend_from_slice(b" ")?;
    out.extend_from_slice(month_word(number(digits[4], digits[5])))?;
    out.extend_from_slice(b" ")?;
    put_right(
        2,
        buffer.format(number(digits[6], digits[7])).as_bytes(),
        out,
    )?;
    out.extend_from_slice(b"  ")?;
    out.extend_from_slice(&digits[..4])?;
    Ok(())
}

/// The number of two digits.
fn number(tens: u8, ones: u8) -> u16
    ensures { result ≡ (tens - 48) * 10 + (ones - 48) }
{
    u16::from(tens.saturating_sub(b'0')) * 10 + u16::from(ones.saturating_sub(b'0'))
}

/// A month, counted from 1, in three letters.
fn month_word(month: u16) -> &'static [u8]
    ensures { result.now ≡ month_word month }
{
    let start = WORD_LEN * usize::from(month.saturating_sub(1));
    let (_, rest) = MONTHS.split_at(start.min(MONTHS.len()));
    let (word, _) = rest.split_at(WORD_LEN.min(rest.len()));
    word
}
