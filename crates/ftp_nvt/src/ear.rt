ghost use Rattle.std.specs.Prelude.{◌≡◌, ◌≢◌, ◌<◌, ◌≤◌, ◌∷◌, [], length, take, slice_index, IfOk, IfErr};

use crate::event::{Event, Heard};
use crate::fault::NvtFault;
use crate::line::LineBuffer;
use crate::run::run_before_command;
use crate::telnet::{IAC, TelnetState, answer};
use std::alloc::Allocator;

/// Hears the lines of a control connection in its octets, however they are cut into pieces, and which answers
/// its Telnet octets are owed (RFC 854; RFC 959, section 4).
#[derive(Drop)]
pub struct Ear<A: Allocator + Copy> {
    place: TelnetState,
    line: LineBuffer<A>,
}

impl<A: Allocator + Copy> Ear<A> {
    ghost use Rattle.ftp_nvt.specs.Ear.{HasHeard, Hears, event_list, limit_of, lent_line, ear_room};
    ghost use Rattle.ftp_nvt.specs.Fold.{ear_of};

    /// An ear that has heard nothing, for lines of at most `limit` octets, their ends included and Telnet octets
    /// taken out.
    pub fn new(alloc: A, limit: usize) -> Result<Ear<A>, NvtFault>
        // Witness of heard, limit: caller: `Reader::new` of `ftp_server` begins with them; edit `new_ear_takes_one_octet_less`.
        ensures heard { IfOk result (λ ear. HasHeard ear []) }
        ensures limit { IfOk result (λ ear. limit_of ear ≡ limit) }
        ensures room { IfOk result (λ ear. ear_room ear ≡ limit) }
        ensures memory { IfErr result (λ fault. fault ≡ NvtFault.Memory) }
    {
        let line = LineBuffer::new(alloc, limit).map_err(|_| NvtFault::Memory)?;
        Ok(Ear {
            place: TelnetState::Between,
            line,
        })
    }

    /// Takes octets until they settle something or the piece is used up; `taken` counts them. Takes no memory: the
    /// room that `new` took is that of the limit, and stays.
    ///
    /// A line is lent by `line` until the next call. Octets behind those taken are for the next call.
    pub fn feed(&mut self, piece: &[u8]) -> Heard
        // Witness of within, some: edit `ear_takes_nothing`; caller: `events_in`, which ends only because each call takes an octet.
        ensures within { result.taken ≤ length piece.now }
        // Witness of hears: edit `return_at_the_end_of_a_piece_is_forgotten`; law `events_are_settled`; caller: `events_in` of `rows_lines`, whose
        // count of events follows from it.
        ensures hears { Hears self.old (take result.taken piece.now)
            (event_list result.event (lent_line self.new)) self.new }
        ensures some { 0 < length piece.now → 0 < result.taken }
        // Witness of all: `leaves_octets` of `rows_lines`.
        ensures all { (result.event ≡ Event.More) → result.taken ≡ length piece.now }
        ensures room { ear_room self.new ≡ ear_room self.old }
    {
        let mut taken = 0;
        while taken < piece.len() {
            let (_, rest) = piece.split_at(taken);
            let heard = self.bite(rest);
            taken += heard.taken;
            match heard.event {
                Event::More => {}
                event => return Heard { taken, event },
            }
        }
        Heard {
            taken,
            event: Event::More,
        }
    }

    /// The line that the last feed ended, without its end, CR NUL being CR.
    pub fn line(&self) -> &[u8]
        ensures { result.now ≡ lent_line self.now }
    {
        self.line.text()
    }

    /// How many octets of text the line that is being read has so far: none between two lines, and none in a line that
    /// passed the limit.
    pub fn unfinished(&self) -> usize
        ensures { result ≡ length (ear_of self.now).line.text }
    {
        self.line.unfinished()
    }

    // Takes a run of octets that settles nothing, or one octet.
    fn bite(&mut self, piece: &[u8]) -> Heard
        requires { 0 < length piece.now }
        ensures within { result.taken ≤ length piece.now }
        ensures hears { Hears self.old (take result.taken piece.now)
            (event_list result.event (lent_line self.new)) self.new }
        ensures some { 0 < result.taken }
    {
        let octet = piece[0];
        if octet != IAC {
            match self.place {
                TelnetState::Between => return self.line.bite(piece),
                TelnetState::Inside => return self.skip(piece),
                _ => {}
            }
        }
        let event = self.octet(octet);
        Heard { taken: 1, event }
    }

    // Skips octets of a subnegotiation in front of the next IAC.
    fn skip(&mut self, piece: &[u8]) -> Heard
        requires some { 0 < length piece.now }
        requires content { slice_index piece.now 0 ≢ IAC }
        requires place { self.old.place ≡ TelnetState.Inside }
        ensures within { result.taken ≤ length piece.now }
        ensures hears { Hears self.old (take result.taken piece.now)
            (event_list result.event (lent_line self.new)) self.new }
        ensures some { 0 < result.taken }
    {
        Heard {
            taken: run_before_command(piece),
            event: Event::More,
        }
    }

    // Takes one octet that belongs to no line, or ends a doubled 255.
    fn octet(&mut self, octet: u8) -> Event
        requires { (self.old.place ≡ TelnetState.Between) → octet ≡ IAC }
        ensures { Hears self.old (octet ∷ []) (event_list result (lent_line self.new)) self.new }
    {
        let place = self.place;
        self.place = place.behind(octet);
        match place {
            TelnetState::Command => {
                if octet == IAC {
                    return self.line.doubled();
                }
                Event::More
            }
            TelnetState::Option(verb) => answer(verb, octet),
            TelnetState::Between | TelnetState::Inside | TelnetState::InsideCommand => Event::More,
        }
    }
}
