// A data connection, and room for its octets.
ghost use Rattle.std.specs.Prelude.{◌≡◌, ◌≤◌, ◌<◌, ℕ, List, [], IfErr, IfOk, IsTrue, OnOk, Option, false, length, None, take, true};
ghost use Rattle.ftp_ports.specs.Asking.{Asked, is_lost};
ghost use Rattle.ftp_ports.specs.Driving.{Quietly};
ghost use Rattle.ftp_ports.specs.Halting.{fate_by};
ghost use Rattle.ftp_ports.specs.Channel.{IsRead, IsWaited, no_channel, with_fate};
ghost use Rattle.ftp_ports.specs.Machine.{IsCut, Progressing, held, seen, side_of};
ghost use Rattle.ftp_ports.specs.Outcome.{IsReset, IsSent, IsWrote, in_hand};
ghost use Rattle.ftp_driver.specs.Standing.{HasEnded, HasNone, IsExchanged, IsOpenAt, IsParting, IsSameChannel, LeavesFairly, channel_at};

use crate::calls::EndCalls;
use crate::hand::fill_front;
use ftp_ends::Wants;
use ftp_ports::{
    Beside, DATA_PIECE_LIMIT, DataConnection, Duplex, Fate, For, Halt, Ports, Ready, Rest,
};

/// A data connection, if there is one, and room for its octets.
pub struct Data<S> {
    pub(crate) connection: DataConnection<S>,
    room: [u8; DATA_PIECE_LIMIT],
}

impl<S: Duplex> Data<S> {
    /// No data connection.
    pub fn new() -> Data<S>
        // Witness: `Drives` of `drive_server` begins where none stands.
        ensures { HasNone S.remaining S.contents result }
    {
        Data {
            connection: DataConnection::new(),
            room: [0; DATA_PIECE_LIMIT],
        }
    }

    /// Whether one stands, and octets may come and go.
    pub(crate) fn is_open(&self) -> bool
        ensures ready { IsTrue result → IsOpenAt self.now }
        ensures none { result ≡ false → IsOpenAt self.now → ⊥ }
    {
        self.connection.stands() && self.connection.fate() == Fate::Sound
    }

    /// Takes octets from an end that has some, where all before were written.
    pub(crate) fn fill<K: EndCalls<E>, E>(&mut self, end: &mut E)
        requires ready { IsOpenAt self.old }
        requires wants { K.machine.wants (K.here end.old) ≡ Wants.Send }
        ensures ready { IsOpenAt self.new }
        ensures quiet { (asked : Option (List Asked)) → Quietly (side_of K.machine) (held (K.here end.old) (channel_at S.remaining S.contents asked self.old [])) (held (K.here end.new) (channel_at S.remaining S.contents asked self.new [])) }
        ensures progresses { self.old.connection.at ≡ self.old.connection.end → (asked : Option (List Asked)) → Progressing K.machine (held (K.here end.old) (channel_at S.remaining S.contents asked self.old [])) (held (K.here end.new) (channel_at S.remaining S.contents asked self.new [])) }
    {
        if self.connection.has_unwritten() {
            return;
        }
        let most = self.piece::<K, E>();
        let given = fill_front::<K, E>(end, &mut self.room, most);
        self.connection.took(given.count, given.rest);
    }

    /// Sees whether the end wants to send: then it has more octets for one that was opened before.
    pub(crate) fn see<K: EndCalls<E>, E>(&mut self, end: &E)
        ensures { (asked : Option (List Asked)) → channel_at S.remaining S.contents asked self.new [] ≡ seen (K.machine.wants (K.here end.now)) (channel_at S.remaining S.contents asked self.old []) }
    {
        match K::wants(end) {
            Wants::Send => self.connection.more(),
            _ => {}
        }
    }

    /// The control connection ended: the end is told, and it is seen before whether it had more octets.
    pub fn cut<K: EndCalls<E>, E>(&mut self, end: &mut E)
        // Witness: both drives: `IsCut` of `BrokeOff` and `GivesUp`.
        ensures { (asked : Option (List Asked)) → IsCut K.machine (held (K.here end.old) (channel_at S.remaining S.contents asked self.old [])) (held (K.here end.new) (channel_at S.remaining S.contents asked self.new [])) }
    {
        self.see::<K, E>(end);
        K::control_end(end);
    }

    /// How many octets are taken at once: of an end that serves by what went so far, of one that asks as many as there is room for.
    fn piece<K: EndCalls<E>, E>(&self) -> usize
        ensures { result ≤ 262144 }
    {
        if K::serves() {
            return self.connection.piece();
        }
        DATA_PIECE_LIMIT
    }

    /// Writes octets that are not written yet, as many as one write takes.
    pub(crate) fn write(&mut self) -> Result<(), Halt>
        requires { IsOpenAt self.old }
        ensures written { (asked : Option (List Asked)) → IsSent (channel_at S.remaining S.contents asked self.old []) (channel_at S.remaining S.contents asked self.new []) }
        ensures some { self.old.connection.at < self.old.connection.end → (asked : Option (List Asked)) → IsWrote (channel_at S.remaining S.contents asked self.old []) (channel_at S.remaining S.contents asked self.new []) }
        ensures fate { self.new.connection.fate ≡ fate_by result Fate.Sound }
    {
        if !self.connection.has_unwritten() {
            return Ok(());
        }
        self.connection.write(&self.room)
    }

    /// Whether octets are on their way over one that is open, and its end has no more: the last of a download or a listing, or of an upload.
    pub(crate) fn is_parting(&self) -> bool
        ensures some { IsTrue result → IsParting self.now }
        ensures none { result ≡ false → IsParting self.now → ⊥ }
    {
        self.is_open() && self.connection.has_unwritten() && self.connection.rest() == Rest::Nothing
    }

    /// Whether octets can go over it now, or what is awaited of the control connection is there.
    pub(crate) fn looks<P: Ports<Stream = S>>(
        &mut self,
        ports: &mut P,
        what: For,
        beside: Beside,
    ) -> bool
        ensures same { (asked : Option (List Asked)) → channel_at S.remaining S.contents asked self.new [] ≡ channel_at S.remaining S.contents asked self.old [] }
        ensures asked { P.history ports.new ≡ P.history ports.old }
        ensures later { result ≡ false → P.waits ports.new }
    {
        self.connection.looks(ports, what, beside)
    }

    /// Waits until octets can go over it, or where `hears` until the control connection is to be served.
    pub(crate) fn wait<P: Ports<Stream = S>>(
        &mut self,
        ports: &mut P,
        what: For,
        hears: bool,
    ) -> Ready
        ensures { IsWaited (is_lost result hears) (channel_at S.remaining S.contents (P.history ports.old) self.old []) (channel_at S.remaining S.contents (P.history ports.new) self.new []) }
    {
        self.connection.wait(ports, what, hears)
    }

    /// Reads once, where all octets of the room were written, and gives how many octets came: none only at the end of the data connection.
    pub(crate) fn come(&mut self) -> Result<usize, Halt>
        requires { IsOpenAt self.old }
        ensures moved { (asked : Option (List Asked)) → IsRead (in_hand result self.new.room) (channel_at S.remaining S.contents asked self.old []) (with_fate Fate.Sound (channel_at S.remaining S.contents asked self.new (in_hand result self.new.room))) }
        ensures fate { self.new.connection.fate ≡ fate_by result Fate.Sound }
        ensures ended { IfOk result (λ count. count ≡ 0 → HasEnded S.remaining self.new) }
    {
        if !self.connection.has_unwritten() {
            return self.connection.read(&mut self.room);
        }
        Err(Halt::Again)
    }

    /// The front of the room, so many octets.
    pub(crate) fn front(&self, count: usize) -> &[u8]
        ensures { result.now ≡ take count self.now.room }
    {
        let (front, _) = self.room.split_at(count.min(self.room.len()));
        front
    }

    /// Puts another stream in the place of the one that stands, and gives that; where none stands, it gives the other one back. So one who has a stream
    /// in memory brings it what came, between two turns.
    pub fn exchange(&mut self, stream: S) -> Result<S, S>
        // Witness: `MemoryEnd::is_known` of `ftp_pair_memory`: `edits/ports_that_gave_another_are_believed` there.
        ensures ok { IfOk result (λ before. IsExchanged before stream self.old self.new) }
        ensures err { IfErr result (λ kept. (kept ≡ stream) × (self.old.connection.stream ≡ None) × IsSameChannel self.old self.new) }
    {
        self.connection.exchange(stream)
    }

    /// Closes it, if it is open, and the port that is listened at.
    #[tactic(auto, using(ftp_ports::proofs::Channels::leaves, ftp_ports::proofs::Channels::none_had))]
    pub fn leave<P: Ports<Stream = S>>(&mut self, ports: &mut P)
        // Witness of none: `drive_client`.
        ensures none { HasNone S.remaining S.contents self.new }
        // Witness of left: `drive_some` of `ftp_server_driver`.
        ensures left { LeavesFairly (channel_at S.remaining S.contents (P.history ports.old) self.old []) (channel_at S.remaining S.contents (P.history ports.new) self.new []) }
    {
        self.connection.close(ports);
    }

    /// Resets it, if it is open, and else closes the port that is listened at.
    #[tactic(auto, using(ftp_ports::proofs::Outcomes::resets))]
    pub fn reset<P: Ports<Stream = S>>(&mut self, ports: &mut P)
        // Witness: `drive_client`: `GivesUp`.
        ensures { (asked : Asked) × IsReset asked (channel_at S.remaining S.contents (P.history ports.old) self.old []) (channel_at S.remaining S.contents (P.history ports.new) self.new []) }
    {
        self.connection.reset(ports);
    }

    /// Closes it for good.
    #[tactic(auto, using(ftp_ports::proofs::Channels::leaves_for_good))]
    pub fn finish<P: Ports<Stream = S>>(self, ports: &mut P)
        // Witness: `drive_server`: `fair` of `BrokeOff`; both drives: which actions are due;
        // `edits/what_is_cut_short_is_closed_as_if_all_was_given.edit`.
        ensures { LeavesFairly (channel_at S.remaining S.contents (P.history ports.old) self []) (no_channel (P.history ports.new)) }
    {
        let Data {
            connection,
            room: _,
        } = self;
        connection.finish(ports);
    }
}
