// What opens and closes data connections, and what tells the time.
ghost use Rattle.std.specs.Prelude.{◌≡◌, ⊤, ℕ, List, [], ◌∷◌, Option, None, false};
ghost use Rattle.std.specs.Io.{ReadsAtMost, WritesAtMost};
ghost use Rattle.std.specs.Io.KnownBytes.{Keeps, ReadConsumes, WriteAppends};
ghost use Rattle.ftp_ports.specs.Asking.{Accepts, Adds, Asked, Closes, Connects, Listened, Resets, is_lost, is_over, told_lost};

use crate::whole::Whole;
use ftp_endpoint::{Endpoint, Host};
use ftp_facts::Moment;
use std::io;
use std::io::{Read, Write};

/// How the waiting for a data connection ended.
pub enum Accepted<S> {
    /// It came, from this host.
    Came(S, Host),
    /// The control connection has octets, or ended; the waiting may go on later.
    Spoken,
    /// It did not come, and does not any more.
    Refused,
}

/// What is waited for at an open data connection.
#[derive(Clone, Copy)]
pub enum For {
    /// Octets that came, or its end.
    Octets,
    /// Room for octets that go.
    Room,
}

/// Which connection is to be served.
#[derive(Clone, Copy)]
pub enum Ready {
    /// What was waited for is there.
    Data,
    /// The control connection has octets, or ended.
    Control,
    /// The control connection ended, or the waiting failed: nothing more will go over the data connection.
    Lost,
}

/// What is awaited that is no data connection that stands.
#[derive(Clone, Copy)]
pub enum Awaited {
    /// Octets of the control connection, or its end.
    Control,
    /// The data connection at the port that is listened at.
    Accepted(Beside),
    /// A data connection to an endpoint, which is begun at the first look: that it stands, or that it failed.
    Connected(Endpoint),
    /// Room of the control connection for replies, 65,536 octets.
    Replies,
}

/// What of the control connection is awaited, too.
#[derive(Clone, Copy, PartialEq, Eq)]
pub enum Beside {
    Nothing,
    /// Its end, or its break.
    End,
    /// Octets, its end, or its break.
    Octets,
}

/// What the control connection has, told without waiting.
#[derive(Clone, Copy, PartialEq, Eq)]
pub enum Spoken {
    /// No octets, and no end.
    Nothing,
    Octets,
    /// It ended or was reset, behind whatever octets are not read yet.
    Ended,
}

/// A stream whose two ways are apart: a read of it leaves what was written, and a write what is left to be read.
pub trait Duplex: Read + Write {
    /// Reads once, as `read` does.
    fn receive(&mut self, room: &mut [u8]) -> io::Result<usize>
        // Witness: as those of `Read` and `Write` (bound, octets); `edits/a_read_changes_what_was_written` of `ftp_pair_memory` (apart).
        ensures bound { ReadsAtMost result room.new }
        ensures octets { ReadConsumes (Self.remaining self.old) (Self.remaining self.new) result room.new }
        ensures apart { Keeps (Self.contents self.old) (Self.contents self.new) };

    /// Writes once, as `write` does.
    fn send(&mut self, octets: &[u8]) -> io::Result<usize>
        // Witness: as of `receive`.
        ensures bound { WritesAtMost result octets.now }
        ensures octets { WriteAppends (Self.contents self.old) (Self.contents self.new) result octets.now }
        ensures apart { Keeps (Self.remaining self.old) (Self.remaining self.new) };
}

/// What opens and closes data connections (RFC 959, section 3.2). Each call may fail; none of them may wait past the end of the control connection.
pub trait Ports {
    /// An open data connection. Its read ends as failed where the control connection ended; its write may go on for a while then. It can't be
    /// let go: each one goes back by `close` or by `reset`.
    type Stream: Duplex;

    /// What was asked so far, the last one first, where that is known.
    ghost history: { Self → Option (List Asked) } = { λ ports. None };

    /// That the look that was made last told of nothing, where that is known.
    ghost waits: { Self → Type 0 } = { λ ports. ⊤ };

    /// Listens at a port of its choice for one data connection.
    fn listen(&mut self) -> Option<u16>
        // Witness: the history grows: `Carries` of `drive_server`; where it is `None`, as over sockets, they say nothing.
        ensures { Adds (history self.old) (history self.new) (Listened result ∷ []) };

    /// Waits for the data connection at that port. Where `hears`, octets of the control connection end the waiting; else only its end does.
    fn accept(&mut self, hears: bool) -> Accepted<Self::Stream>
        // Witness: as of `listen`.
        ensures { Accepts Self.Stream.remaining Self.Stream.contents result hears (history self.old) (history self.new) };

    /// Opens a data connection to an endpoint.
    fn connect(&mut self, endpoint: Endpoint) -> Option<Self::Stream>
        // Witness: as of `listen`.
        ensures { Connects Self.Stream.remaining Self.Stream.contents endpoint result (history self.old) (history self.new) };

    /// Waits at an open data connection. Where `hears`, octets of the control connection stop the waiting, and go first. Its end stops it where
    /// the data connection is not ready; the answer is then `Control` where `hears`, and else `Lost`.
    fn wait(&mut self, stream: &mut Self::Stream, what: For, hears: bool) -> Ready
        // Witness: `wait` of `ftp_driver`.
        ensures left { Keeps (Self.Stream.remaining stream.old) (Self.Stream.remaining stream.new) }
        ensures written { Keeps (Self.Stream.contents stream.old) (Self.Stream.contents stream.new) }
        ensures asked { Adds (history self.old) (history self.new) (told_lost (is_lost result hears)) };

    /// Whether that is there: the call that waits for it ends at once. Never waits itself. One who has nothing else to do lets that call wait.
    fn looks(&mut self, _what: Awaited) -> bool
        // Witness: `drive_on` of `ftp_driver`: turns, later.
        ensures asked { history self.new ≡ history self.old }
        ensures later { result ≡ false → waits self.new }
    {
        true
    }

    /// The same at an open data connection: that a read, or a write, of it would not wait, or what of the control connection is awaited beside.
    fn looks_at(&mut self, _stream: &mut Self::Stream, _what: For, _beside: Beside) -> bool
        // Witness: `drive_on` of `ftp_driver`: turns, later.
        ensures left { Self.Stream.remaining _stream.new ≡ Self.Stream.remaining _stream.old }
        ensures written { Self.Stream.contents _stream.new ≡ Self.Stream.contents _stream.old }
        ensures asked { history self.new ≡ history self.old }
        ensures later { result ≡ false → waits self.new }
    {
        true
    }

    /// What the control connection has now.
    fn spoken(&mut self) -> Spoken
        // Witness: as of `listen`.
        ensures { Adds (history self.old) (history self.new) (told_lost (is_over result)) };

    /// Closes a data connection and the port that is listened at, if there are any: the peer finds the end behind all that was written.
    fn close(&mut self, stream: Option<Whole<Self::Stream>>)
        // Witness: as of `listen`.
        ensures { Closes Self.Stream.remaining Self.Stream.contents stream (history self.old) (history self.new) };

    /// Closes a data connection, whole or not: the peer finds a reset, and never an end.
    fn reset(&mut self, stream: Self::Stream)
        // Witness: as of `listen`.
        ensures { Resets Self.Stream.remaining Self.Stream.contents stream (history self.old) (history self.new) };
}

/// What tells the time.
pub trait Watch {
    /// What it told so far, in seconds since 1970, the last one first, where that is known.
    ghost told: { Self → Option (List ℕ) } = { λ watch. None };

    /// The moment that it is.
    fn moment(&mut self) -> Moment
        // Witness: the history grows: `Timely` of `ftp_server_driver`; where it is `None`, as of the system's clock, it says nothing.
        ensures { Adds (told self.old) (told self.new) (result.seconds ∷ []) };
}
