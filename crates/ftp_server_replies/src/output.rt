// The control octets that a server owes, in the order in which they go out (RFC 959, section 4.2).
ghost use Rattle.std.specs.Prelude.{◌≡◌, ◌+◌, ◌-◌, ◌*◌, ◌≤◌, ◌++◌, [], IfOk, IfSome, Some, length, take, drop, min, nat_le, flat_map, decimal};
ghost use Rattle.ftp_ends.specs.Reply.{reply_octets};
ghost use Rattle.ftp_nvt.specs.Lines.{written_octet};
ghost use Rattle.ftp_reply.specs.Values.{doubled};
ghost use Rattle.ftp_server_model.specs.Heard.{code_in};
ghost use Rattle.ftp_server_model.specs.Replies.{fixed_reply};
ghost use Rattle.ftp_server_replies.specs.Codes.{digit_in, of_three};
ghost use Rattle.std.specs.List.{slice_get};

use crate::fixed_replies::{FIXED_LIMIT, fixed_line};
use circular_buffer::HeapCircularBuffer;
use ftp_server_model::{FREE_ROOM, FixedReply, OUTPUT_ROOM};
use itoa::Buffer;
use std::alloc::{AllocError, Allocator};
use std::marker::Model;

/// The most octets of a number in decimal.
const NUMBER_LIMIT: usize = 20;

const NUL: u8 = 0;

const CR: u8 = 13;

/// The octet that a Telnet command begins with (RFC 854).
const IAC: u8 = 255;

/// The control octets that are owed, in room that was reserved: to owe some takes no memory.
#[derive(Drop)]
pub struct Output<A: Allocator + Copy> {
    octets: HeapCircularBuffer<u8, A>,
}

impl<A: Allocator + Copy> Model for Output<A> {
    ghost use Rattle.std.specs.Prelude.{ℕ, List, ◌≡◌};
    ghost use Rattle.ftp_server_model.specs.declared.room.TheConstants.{OUTPUT_ROOM};

    ghost Value = { List ℕ };

    ghost view = { λ output. output.octets.items };

    ghost invariant = { λ output. output.octets.capacity ≡ OUTPUT_ROOM };
}

impl<A: Allocator + Copy> Output<A> {
    /// No octets are owed.
    pub fn new(alloc: A) -> Result<Output<A>, AllocError>
        ensures { IfOk result (λ output. output ≡ []) }
    {
        Ok(Output {
            octets: HeapCircularBuffer::with_capacity(alloc, OUTPUT_ROOM)?,
        })
    }

    /// No octets are owed any longer.
    pub fn clear(&mut self)
        ensures { self.new ≡ [] }
    {
        self.octets.clear();
    }

    /// How many octets are owed.
    pub fn len(&self) -> usize
        ensures len { result ≡ length self.now }
        // Witness of within: `Server::held` of `ftp_server` needs it.
        ensures within { result ≤ OUTPUT_ROOM }
    {
        self.octets.len()
    }

    /// Whether there is room for whatever comes of one more octet.
    pub fn has_room(&self) -> bool
        ensures { result ≡ nat_le (length self.now) (OUTPUT_ROOM - FREE_ROOM) }
    {
        self.octets.len() <= OUTPUT_ROOM - FREE_ROOM
    }

    /// Gives octets, the first that are owed first, and says how many.
    pub fn give(&mut self, room: &mut [u8]) -> usize
        ensures count { result ≡ min (length room.old) (length self.old) }
        // Witness of gave: equations and bounds of the count, where the device did not stray; where what comes next was not had something is left;
        // the map stays, and the count moves on by one at most.
        ensures gave { room.new ≡ take result self.old ++ drop result room.old }
        ensures rest { self.new ≡ drop result self.old }
    {
        self.octets.read_into(room)
    }

    /// The code whose three digits stand at a place of them; none where no three digits stand there.
    pub fn code_at(&self, place: usize) -> Option<u16>
        // Witness: an equation; `edits/a_code_is_read_one_octet_on`.
        ensures { result ≡ code_in (drop place self.now) }
    {
        if place >= self.octets.len() {
            return None;
        }
        of_three(
            self.digit_at(place),
            self.digit_at(place + 1),
            self.digit_at(place + 2),
        )
    }

    /// The number that the octet at a place is as a digit, if it is one.
    fn digit_at(&self, place: usize) -> Option<u16>
        ensures is { result ≡ digit_in (slice_get self.now place) }
        ensures small { IfSome result (λ digit. digit ≤ 9) }
    {
        match self.octets.get(place) {
            Some(octet) => digit_of(*octet),
            None => None,
        }
    }

    /// Owes these octets as they are.
    pub fn put(&mut self, octets: &[u8])
        requires { length self.old + length octets.now ≤ OUTPUT_ROOM }
        ensures { self.new ≡ self.old ++ octets.now }
    {
        self.octets.fill_from_slice(octets);
    }

    /// Owes a reply without computed parts.
    pub fn put_fixed(&mut self, text: FixedReply)
        requires { length self.old + FIXED_LIMIT ≤ OUTPUT_ROOM }
        ensures octets { self.new ≡ self.old ++ reply_octets (fixed_reply text) }
        // Witness of room: follows from `octets`; it spares callers the length.
        ensures room { length self.new ≤ length self.old + FIXED_LIMIT }
    {
        self.put(fixed_line(text));
    }

    /// Owes a number in decimal.
    pub fn put_number(&mut self, number: u64)
        requires { length self.old + 2 * NUMBER_LIMIT ≤ OUTPUT_ROOM }
        ensures octets { self.new ≡ self.old ++ flat_map written_octet (decimal number) }
        // Witness of room: follows from `octets`; it spares callers the length.
        ensures room { length self.new ≤ length self.old + 2 * NUMBER_LIMIT }
    {
        let mut buffer = Buffer::new();
        self.put_text(buffer.format(number).as_bytes());
    }

    /// Owes an octet of a line's text as Telnet has it (RFC 854): 255 doubled, CR as CR NUL.
    fn put_octet(&mut self, octet: u8)
        requires { length self.old + 2 ≤ OUTPUT_ROOM }
        ensures octets { self.new ≡ self.old ++ written_octet octet }
        ensures room { length self.new ≤ length self.old + 2 }
    {
        match octet {
            IAC => self.put(&[IAC, IAC]),
            CR => self.put(&[CR, NUL]),
            _ => self.put(&[octet]),
        }
    }

    /// Owes a text of a line as Telnet has it.
    pub fn put_text(&mut self, text: &[u8])
        requires { length self.old + 2 * length text.now ≤ OUTPUT_ROOM }
        ensures octets { self.new ≡ self.old ++ flat_map written_octet text.now }
        // Witness of room: follows from `octets`; it spares callers the length.
        ensures room { length self.new ≤ length self.old + 2 * length text.now }
    {
        for octet in text {
            self.put_octet(*octet);
        }
    }

    /// Owes a text with each double quote in it twice (RFC 959, appendix II), as Telnet has it.
    pub fn put_doubled(&mut self, text: &[u8])
        requires { length self.old + 4 * length text.now ≤ OUTPUT_ROOM }
        ensures octets { self.new ≡ self.old ++ flat_map written_octet (doubled text.now) }
        // Witness of room: follows from `octets`; it spares callers the length.
        ensures room { length self.new ≤ length self.old + 4 * length text.now }
    {
        for octet in text {
            if *octet == b'"' {
                self.put_octet(b'"');
            }
            self.put_octet(*octet);
        }
    }
}

/// The number that an octet is as a digit, if it is one.
fn digit_of(octet: u8) -> Option<u16>
    ensures is { result ≡ digit_in (Some octet) }
    ensures small { IfSome result (λ digit. digit ≤ 9) }
{
    if !octet.is_ascii_digit() {
        return None;
    }
    Some((octet - b'0') as u16)
}

/// The number that three digits are, where each is one.
fn of_three(a: Option<u16>, b: Option<u16>, c: Option<u16>) -> Option<u16>
    requires first { IfSome a (λ digit. digit ≤ 9) }
    requires second { IfSome b (λ digit. digit ≤ 9) }
    requires third { IfSome c (λ digit. digit ≤ 9) }
    ensures { result ≡ of_three a b c }
{
    match (a, b, c) {
        (Some(a), Some(b), Some(c)) => Some(100 * a + (10 * b + c)),
        _ => None,
    }
}
