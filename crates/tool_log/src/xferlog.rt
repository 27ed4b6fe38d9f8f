// Lines of the log as `xferlog` has them, as wu-ftpd and vsftpd write it: functions of values.
ghost use Rattle.std.specs.Prelude.{◌≡◌, ◌<◌, ◌++◌, IfOk, OnOk, decimal, flat_map};
ghost use Rattle.ftp_facts.specs.Moment.{moment_digits};
ghost use Rattle.tool_log.specs.Xferlog.{access_mode, completion_letter, completion_of, current_time, dated, day_and_time, day_digit, direction_letter};
ghost use Rattle.tool_log.specs.Xferlog.{direction_of, ended_of, ending_fields, field_octet, fields, kind_fields, month_of, month_word, moved_fields};
ghost use Rattle.tool_log.specs.Xferlog.{spaced, text_field, three_at, transfer_time, user_fields, weekday_word, xferlog_line};

use crate::entry::DataClose;
use ftp_command::Verb;
use ftp_facts::{Moment, moment_text};
use ftp_reply::code::COMPLETE;
use itoa::Buffer;
use std::alloc::{AllocError, Global};

/// The days of a week, and the months, in three letters each.
const WEEKDAYS: &[u8] = b"SunMonTueWedThuFriSat";

const MONTHS: &[u8] = b"JanFebMarAprMayJunJulAugSepOctNovDec";

/// The letters of such a word.
const WORD_LEN: usize = 3;

/// Which way a file went.
#[derive(Clone, Copy)]
pub(crate) enum Direction {
    /// To the client.
    Out,
    /// From it.
    In,
}

/// Whether all of a file went.
#[derive(Clone, Copy)]
pub(crate) enum Completion {
    Complete,
    Incomplete,
}

/// A transfer that ended, as values.
#[derive(Clone, Copy)]
pub(crate) struct TransferFacts<'a> {
    pub(crate) moment: Moment,
    /// How long it took, in milliseconds.
    pub(crate) millis: u64,
    /// The client's address.
    pub(crate) host: &'a [u8],
    /// How many went over the data connection.
    pub(crate) octets: u64,
    pub(crate) path: &'a [u8],
    pub(crate) direction: Direction,
    pub(crate) user: &'a [u8],
    pub(crate) completion: Completion,
}

/// The line of a transfer. That its type is `b` is no fact: the log is not told types.
pub(crate) fn transfer_line(
    alloc: Global,
    transfer: &TransferFacts<'_>,
) -> Result<Vec<u8, Global>, AllocError>
    // Witness: an equation, where memory is not refused; `edits/the_user_of_a_transfer_is_its_file`.
    ensures { IfOk result (λ line. line.items ≡ xferlog_line transfer.now) }
{
    let mut line = Vec::new(alloc);
    put_time(transfer.moment, &mut line)?;
    put_fields(transfer, &mut line)?;
    Ok(line)
}

/// Which way the file of a verb goes; none of a verb that moves no file.
pub(crate) fn direction_of(verb: Option<Verb>) -> Option<Direction>
    // Witness: an equation; `edits/an_append_is_no_transfer`.
    ensures { result ≡ direction_of verb }
{
    match verb {
        Some(Verb::Retr) => Some(Direction::Out),
        Some(Verb::Stor | Verb::Stou | Verb::Appe) => Some(Direction::In),
        _ => None,
    }
}

/// Whether a transfer is complete whose last reply had this code, and whose data connection was closed so.
pub(crate) fn completion_of(code: Option<u16>, fate: DataClose) -> Completion
    // Witness: an equation; `edits/a_transfer_that_was_reset_is_complete`.
    ensures { result ≡ completion_of code fate }
{
    match (code, fate) {
        (Some(code), DataClose::Ended) => ended_of(code),
        _ => Completion::Incomplete,
    }
}

/// Whether a transfer is complete that was answered so.
fn ended_of(code: u16) -> Completion
    ensures { result ≡ ended_of code }
{
    if code == COMPLETE {
        Completion::Complete
    } else {
        Completion::Incomplete
    }
}

/// Appends the fields behind the current time.
fn put_fields(transfer: &TransferFacts<'_>, out: &mut Vec<u8, Global>) -> Result<(), AllocError>
    ensures { OnOk result (out.new.items ≡ out.old.items ++ fields transfer.now) }
{
    put_moved(transfer, out)?;
    put_kind(transfer.direction, out)?;
    put_user(transfer.user, out)?;
    put_ending(transfer.completion, out)
}

/// Appends how long it took, to whom it was, and what went.
fn put_moved(transfer: &TransferFacts<'_>, out: &mut Vec<u8, Global>) -> Result<(), AllocError>
    ensures { OnOk result (out.new.items ≡ out.old.items ++ moved_fields transfer.now) }
{
    put_number(transfer_time(transfer.millis), out)?;
    put_text(transfer.host, out)?;
    put_number(transfer.octets, out)?;
    put_text(transfer.path, out)
}

/// Appends its type, that nothing was done to the file on the way, and which way it went.
fn put_kind(direction: Direction, out: &mut Vec<u8, Global>) -> Result<(), AllocError>
    ensures { OnOk result (out.new.items ≡ out.old.items ++ kind_fields direction) }
{
    out.extend_from_slice(b" b _ ")?;
    out.extend_from_slice(direction_letter(direction))
}

/// Appends how the user is known, and the user.
fn put_user(user: &[u8], out: &mut Vec<u8, Global>) -> Result<(), AllocError>
    ensures { OnOk result (out.new.items ≡ out.old.items ++ user_fields user.now) }
{
    out.extend_from_slice(b" ")?;
    out.extend_from_slice(access_mode(user))?;
    put_text(user, out)
}

/// Appends the service, that no other server says who the user is, and whether all went.
fn put_ending(completion: Completion, out: &mut Vec<u8, Global>) -> Result<(), AllocError>
    ensures { OnOk result (out.new.items ≡ out.old.items ++ ending_fields completion) }
{
    out.extend_from_slice(b" ftp 0 * ")?;
    out.extend_from_slice(completion_letter(completion))
}

/// The seconds of so many milliseconds, whole ones, and at least 1.
fn transfer_time(millis: u64) -> u64
    // Witness: an equation; `edits/a_short_transfer_took_no_time`.
    ensures { result ≡ transfer_time millis }
{
    (millis / 1_000).max(1)
}

fn direction_letter(direction: Direction) -> &'static [u8]
    ensures { result.now ≡ direction_letter direction }
{
    match direction {
        Direction::Out => b"o",
        Direction::In => b"i",
    }
}

fn completion_letter(completion: Completion) -> &'static [u8]
    ensures { result.now ≡ completion_letter completion }
{
    match completion {
        Completion::Complete => b"c",
        Completion::Incomplete => b"i",
    }
}

/// How a user is known.
fn access_mode(user: &[u8]) -> &'static [u8]
    ensures { result.now ≡ access_mode user.now }
{
    if user == b"anonymous".as_slice() {
        b"a"
    } else {
        b"r"
    }
}

/// Appends a number as a field behind others.
fn put_number(value: u64, out: &mut Vec<u8, Global>) -> Result<(), AllocError>
    ensures { OnOk result (out.new.items ≡ out.old.items ++ spaced (decimal value)) }
{
    out.extend_from_slice(b" ")?;
    out.extend_from_slice(Buffer::new().format(value).as_bytes())
}

/// Appends a text as a field behind others.
fn put_text(text: &[u8], out: &mut Vec<u8, Global>) -> Result<(), AllocError>
    // Witness: an equation, where memory is not refused; `edits/a_name_with_a_space_is_two_fields`.
    ensures { OnOk result (out.new.items ≡ out.old.items ++ spaced (text_field text.now)) }
{
    out.extend_from_slice(b" ")?;
    if text.is_empty() {
        out.extend_from_slice(b"-")
    } else {
        put_octets(text, out)
    }
}

fn put_octets(text: &[u8], out: &mut Vec<u8, Global>) -> Result<(), AllocError>
    ensures { OnOk result (out.new.items ≡ out.old.items ++ flat_map field_octet text.now) }
{
    for octet in text {
        put_octet(*octet, out)?;
    }
    Ok(())
}

fn put_octet(octet: u8, out: &mut Vec<u8, Global>) -> Result<(), AllocError>
    ensures { OnOk result (out.new.items ≡ out.old.items ++ field_octet octet) }
{
    if octet < 33 || octet == 127 {
        out.extend_from_slice(b"_")
    } else {
        out.extend_from_slice(&[octet])
    }
}

/// Appends the current time, in UTC.
fn put_time(moment: Moment, out: &mut Vec<u8, Global>) -> Result<(), AllocError>
    ensures { OnOk result (out.new.items ≡ out.old.items ++ current_time moment.seconds) }
{
    out.extend_from_slice(weekday_word(moment.seconds / 86_400))?;
    put_date(moment, out)
}

fn put_date(moment: Moment, out: &mut Vec<u8, Global>) -> Result<(), AllocError>
    ensures { OnOk result (out.new.items ≡ out.old.items ++ spaced (dated (moment_digits moment.seconds))) }
{
    put_dated(moment_text(moment), out)
}

/// Appends fourteen digits of a moment as month, day, time of day and year.
fn put_dated(digits: [u8; 14], out: &mut Vec<u8, Global>) -> Result<(), AllocError>
    ensures { OnOk result (out.new.items ≡ out.old.items ++ spaced (dated digits)) }
{
    out.extend_from_slice(b" ")?;
    out.extend_from_slice(month_word(month_of(digits)))?;
    out.extend_from_slice(&day_and_time(digits))
}

/// The month of fourteen digits of a moment.
fn month_of(digits: [u8; 14]) -> u16
    ensures { result ≡ month_of digits }
{
    let [_, _, _, _, tens, ones, ..] = digits;
    u16::from(tens.saturating_sub(b'0')) * 10 + u16::from(ones.saturating_sub(b'0'))
}

/// What is behind the month: the day, the time of day and the year.
fn day_and_time(digits: [u8; 14]) -> [u8; 17]
    ensures { result ≡ day_and_time digits }
{
    let [a, b, c, d, _, _, g, h, i, j, k, l, m, n] = digits;
    let g = day_digit(g);
    [
        b' ', g, h, b' ', i, j, b':', k, l, b':', m, n, b' ', a, b, c, d,
    ]
}

/// The first digit of a day: a space for a zero.
fn day_digit(digit: u8) -> u8
    ensures { result ≡ day_digit digit }
{
    if digit == b'0' { b' ' } else { digit }
}

/// The day of the week of a day, counted from the first of 1970, a Thursday.
fn weekday_word(days: u64) -> &'static [u8]
    // Witness: an equation; `edits/the_first_of_1970_was_a_friday`.
    ensures { result.now ≡ weekday_word days }
{
    three_at((days % 7 + 4) % 7, WEEKDAYS)
}

/// A month, counted from 1.
fn month_word(month: u16) -> &'static [u8]
    ensures { result.now ≡ month_word month }
{
    three_at(u64::from(month.saturating_sub(1)), MONTHS)
}

/// The word at a place of some of three letters each.
fn three_at(place: u64, words: &'static [u8]) -> &'static [u8]
    requires { place < 65_536 }
    ensures { result.now ≡ three_at place words.now }
{
    let start = WORD_LEN * (place as usize);
    let (_, rest) = words.split_at(start.min(words.len()));
    let (word, _) = rest.split_at(WORD_LEN.min(rest.len()));
    word
}
