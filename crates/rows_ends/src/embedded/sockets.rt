// What a program that embeds an end asks of its sockets.
use ftp_endpoint::Host;
use ftp_ends::Wants;
use ftp_facts::Moment;
use ftp_ports::Failed;

/// One data connection after another, each call of which waits by itself, and a clock. The last is closed by whose the sockets are.
pub trait EmbeddedSockets {
    /// A port that is listened at.
    fn listen(&mut self) -> Option<u16>;

    /// Opens the data connection that is wanted, to an endpoint or by the port, and gives the host at its other end.
    fn open(&mut self, wanted: Wants) -> Option<Host>;

    /// Reads some of its octets, none at its end.
    fn read(&mut self, room: &mut [u8]) -> Result<usize, Failed>;

    /// Writes all of these.
    fn write(&mut self, octets: &[u8]) -> Result<(), Failed>;

    /// Closes it.
    fn close(&mut self);

    /// The moment.
    fn now(&mut self) -> Moment;
}
