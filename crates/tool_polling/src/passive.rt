// The ports that passive data connections are listened at.
ghost use Rattle.std.specs.Prelude.{◌≡◌, max};
ghost use Rattle.std.specs.Global.{Global};
ghost use Rattle.tool_polling.specs.PassivePorts.{is_given_up, next_port};

use crate::awaits::look;
use libc::net as c;
use std::alloc::Global;
use std::cell::{Cell, RefCell};
use std::io;
use std::io::ErrorKind;
use std::net::{IpAddr, SocketAddr, TcpListener};
use tool_sockets::{Sockets, asking, monotonic_millis};

/// The most ports that rest: they are listened at, and nobody waits there.
const RESTING: usize = 16;

/// The most connections that are let go which came at a port while it rested; where more did, it rests no longer.
const STRANGERS: u32 = 16;

/// How long a port that nobody opens is kept where others want one, in milliseconds, and for how long one is wanted that was not had.
const KEPT_MILLIS: u64 = 10_000;

/// A port that is listened at, on an address.
#[derive(Drop)]
pub(crate) struct Listening {
    pub(crate) listener: TcpListener,
    here: IpAddr,
    pub(crate) port: u16,
    /// Since when a connection is waited for there.
    since: u64,
}

/// What becomes of a port that nobody opens, while others want one.
#[derive(Clone, Copy)]
enum Unopened {
    /// It is kept as long as its session is.
    IsKept,
    /// It is given up after ten seconds.
    IsGivenUp,
}

impl Listening {
    /// Whether no connection is left there: those that came are let go.
    fn is_clear(&self) -> bool {
        !self.is_opened() || self.lets_go()
    }

    /// Whether a connection came that was not accepted yet.
    fn is_opened(&self) -> bool {
        let mut rows = [asking(&self.listener, c::POLLIN)];
        look(&mut rows);
        rows[0].revents != 0
    }

    /// Lets go the connections that came, and says whether none is left.
    fn lets_go(&self) -> bool {
        for _ in 0..STRANGERS {
            match self.listener.accept() {
                Ok(_) => {}
                Err(error) => return error.kind() == ErrorKind::WouldBlock,
            }
        }
        false
    }

    /// Whether it is a port of this address.
    fn is_at(&self, here: IpAddr) -> bool {
        self.here == here
    }
}

/// The ports from `first` to `last`, each tried in turn after the one that was listened at last; 0 to 0 is a port that the system chooses. A port that is done
/// with rests: it stays listened at, and is used again where it is the next one, or where as many rest as may, the one that rests the longest first. What came
/// there meanwhile is let go before.
#[derive(Drop)]
pub struct PassivePorts {
    first: u16,
    last: u16,
    /// The port that is tried next.
    next: Cell<u16>,
    /// The ports that rest, the one that rests the longest first.
    resting: RefCell<Vec<Listening, Global>>,
    unopened: Unopened,
    /// When a port was wanted last that was not had.
    wanted: Cell<Option<u64>>,
}

impl PassivePorts {
    /// These ports, from the first one on. Where `last` is before `first`, the first alone.
    pub fn new(alloc: Global, first: u16, last: u16) -> PassivePorts
        ensures first { result.first ≡ first }
        ensures last { result.last ≡ max first last }
    {
        PassivePorts {
            first,
            last: first.max(last),
            next: Cell::new(first),
            resting: RefCell::new(Vec::new(alloc)),
            unopened: Unopened::IsKept,
            wanted: Cell::new(None),
        }
    }

    /// The same, of which one that nobody opened for ten seconds is given up where another is wanted and none is free.
    pub fn given_up(alloc: Global, first: u16, last: u16) -> PassivePorts
        ensures first { result.first ≡ first }
        ensures last { result.last ≡ max first last }
    {
        PassivePorts {
            unopened: Unopened::IsGivenUp,
            ..PassivePorts::new(alloc, first, last)
        }
    }

    /// Listens at the next of the ports that is free (RFC 959, section 4.1.2, PASV); where none is, it fails, and one is wanted.
    pub(crate) fn listen<R: Sockets>(&self, net: &R, here: IpAddr) -> io::Result<Listening> {
        let mut listening = self.next_free(net, here);
        match &mut listening {
            Ok(listening) => listening.since = monotonic_millis(),
            Err(_) => self.wanted.set(Some(monotonic_millis())),
        }
        listening
    }

    /// Until when a port is kept at which a connection is waited for; none where nobody wants it.
    pub(crate) fn kept_until(&self, listening: &Listening) -> Option<u64> {
        let Unopened::IsGivenUp = self.unopened else {
            return None;
        };
        let now = monotonic_millis();
        let wanted = self.wanted.get()?;
        if now.saturating_sub(wanted) < KEPT_MILLIS && !listening.is_opened() {
            Some(listening.since.saturating_add(KEPT_MILLIS))
        } else {
            None
        }
    }

    /// A port at which a connection is waited for, unless it is given up now: then it rests, and no other one is wanted.
    pub(crate) fn keep(&self, listening: Listening) -> Option<Listening> {
        let now = monotonic_millis();
        let wanted = match self.unopened {
            Unopened::IsKept => None,
            Unopened::IsGivenUp => self.wanted.get(),
        };
        let held = now.saturating_sub(listening.since);
        let ago = wanted.map(|since| now.saturating_sub(since));
        if !is_given_up(held, ago) || listening.is_opened() {
            return Some(listening);
        }
        self.wanted.set(None);
        self.rest(listening);
        None
    }

    /// The next of the ports that is free, listened at.
    fn next_free<R: Sockets>(&self, net: &R, here: IpAddr) -> io::Result<Listening> {
        if let Some(rested) = self.longest(here) {
            return Ok(rested);
        }
        for _ in self.first..=self.last {
            let port = self.next.get();
            self.next.set(port_after(self.first, self.last, port));
            if let Some(rested) = self.rested(here, port) {
                return Ok(rested);
            }
            match bind(net, here, port) {
                Err(error) if error.kind() == ErrorKind::AddrInUse => {}
                other => return other,
            }
        }
        Err(io::Error::from(ErrorKind::AddrInUse))
    }

    /// A port is done with. It rests, where there is room; else it is listened at no longer.
    pub(crate) fn rest(&self, listening: Listening) {
        if let Ok(mut resting) = self.resting.try_borrow_mut() {
            if resting.len() < RESTING {
                let _kept = resting.push(listening);
            }
        }
    }

    /// The port of this address that rests the longest, where as many rest as may; none where more came there than is let go.
    fn longest(&self, here: IpAddr) -> Option<Listening> {
        let mut resting = self.resting.try_borrow_mut().ok()?;
        if resting.len() < RESTING {
            return None;
        }
        let at = resting.iter().position(|it| it.is_at(here))?;
        Some(resting.remove(at)).filter(|it| it.is_clear())
    }

    /// This port, where it rests; none where more came there than is let go.
    fn rested(&self, here: IpAddr, port: u16) -> Option<Listening> {
        let mut resting = self.resting.try_borrow_mut().ok()?;
        let at = resting
            .iter()
            .position(|it| it.port == port && it.is_at(here))?;
        Some(resting.remove(at)).filter(|it| it.is_clear())
    }
}

/// Listens at a port: the system is asked which only where it chooses one, as of port 0.
fn bind<R: Sockets>(net: &R, here: IpAddr, port: u16) -> io::Result<Listening> {
    let listener = net.listener(SocketAddr::new(here, port))?;
    listener.set_nonblocking(true)?;
    let port = if port == 0 {
        listener.local_addr()?.port()
    } else {
        port
    };
    Ok(Listening {
        listener,
        here,
        port,
        since: 0,
    })
}

/// Whether a port is given up that nobody opened for so many milliseconds, where another was wanted so many milliseconds ago, if one was.
fn is_given_up(held: u64, wanted: Option<u64>) -> bool
    ensures { result ≡ is_given_up held wanted }
{
    match wanted {
        Some(wanted) => wanted < KEPT_MILLIS && held >= KEPT_MILLIS,
        None => false,
    }
}

/// The port after one, in turn among those from `first` to `last`.
fn port_after(first: u16, last: u16, port: u16) -> u16
    ensures { result ≡ next_port first last port }
{
    if port < first || port >= last {
        first
    } else {
        port + 1
    }
}
