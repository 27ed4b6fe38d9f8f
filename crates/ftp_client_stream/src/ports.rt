// Data connections of one transfer, over which something else goes than its client gives and hears.
ghost use Rattle.std.specs.Prelude.{◌≡◌, ⊤, None};
ghost use Rattle.ftp_ports.specs.Asking.{Closes};

use crate::carrying::Carries;
use ftp_endpoint::Endpoint;
use ftp_ports::{Accepted, Awaited, Beside, Duplex, For, Ports, Ready, Spoken, Whole};
use std::cell::Cell;
use std::io;
use std::io::{Error, ErrorKind, Read, Write};

/// Data connections of one transfer. What goes over them is at home in a cell, and back there once the one that has it is closed.
#[derive(Drop)]
pub struct CarriedPorts<'p, 'c, P, T> {
    ports: &'p mut P,
    home: &'c Cell<Option<T>>,
}

/// A data connection with what goes over it; with nothing, where another data connection has it.
pub struct CarriedLink<'c, L, T> {
    link: L,
    carried: Option<T>,
    home: &'c Cell<Option<T>>,
}

impl<'p, 'c, P: Ports, T: Drop> CarriedPorts<'p, 'c, P, T> {
    /// Data connections by these, for what is at home in the cell.
    pub fn new(ports: &'p mut P, home: &'c Cell<Option<T>>) -> CarriedPorts<'p, 'c, P, T> {
        CarriedPorts { ports, home }
    }

    /// A data connection that takes what goes over it.
    fn carried(&self, link: P::Stream) -> CarriedLink<'c, P::Stream, T> {
        CarriedLink {
            link,
            carried: self.home.replace(None),
            home: self.home,
        }
    }
}

impl<'c, L, T: Drop> CarriedLink<'c, L, T> {
    /// The connection itself, of which what went over it goes home.
    fn ended(self) -> L {
        let CarriedLink {
            link,
            carried,
            home,
        } = self;
        if carried.is_some() {
            home.set(carried);
        }
        link
    }
}

impl<'c, L: Read, T: Carries> Read for CarriedLink<'c, L, T> {
    fn read(&mut self, room: &mut [u8]) -> io::Result<usize> {
        match &mut self.carried {
            Some(carried) => carried.hear(&mut self.link, room),
            None => Err(Error::from(ErrorKind::NotConnected)),
        }
    }
}

impl<'c, L: Write, T: Carries> Write for CarriedLink<'c, L, T> {
    fn write(&mut self, octets: &[u8]) -> io::Result<usize> {
        match &mut self.carried {
            Some(carried) => carried.give(&mut self.link, octets),
            None => Err(Error::from(ErrorKind::NotConnected)),
        }
    }

    fn flush(&mut self) -> io::Result<()> {
        self.link.flush()
    }
}

impl<'c, L: Read + Write, T: Carries> Duplex for CarriedLink<'c, L, T> {
    fn receive(&mut self, room: &mut [u8]) -> io::Result<usize> {
        self.read(room)
    }

    fn send(&mut self, octets: &[u8]) -> io::Result<usize> {
        self.write(octets)
    }
}

impl<'p, 'c, P: Ports, T: Carries + Drop> Ports for CarriedPorts<'p, 'c, P, T> {
    type Stream = CarriedLink<'c, P::Stream, T>;

    fn listen(&mut self) -> Option<u16> {
        self.ports.listen()
    }

    fn accept(&mut self, hears: bool) -> Accepted<CarriedLink<'c, P::Stream, T>> {
        match self.ports.accept(hears) {
            Accepted::Came(link, host) => Accepted::Came(self.carried(link), host),
            Accepted::Spoken => Accepted::Spoken,
            Accepted::Refused => Accepted::Refused,
        }
    }

    fn connect(&mut self, endpoint: Endpoint) -> Option<CarriedLink<'c, P::Stream, T>> {
        match self.ports.connect(endpoint) {
            Some(link) => Some(self.carried(link)),
            None => None,
        }
    }

    fn wait(
        &mut self,
        stream: &mut CarriedLink<'c, P::Stream, T>,
        what: For,
        hears: bool,
    ) -> Ready {
        self.ports.wait(&mut stream.link, what, hears)
    }

    fn looks(&mut self, what: Awaited) -> bool {
        self.ports.looks(what)
    }

    fn looks_at(
        &mut self,
        stream: &mut CarriedLink<'c, P::Stream, T>,
        what: For,
        beside: Beside,
    ) -> bool {
        self.ports.looks_at(&mut stream.link, what, beside)
    }

    fn spoken(&mut self) -> Spoken {
        self.ports.spoken()
    }

    fn close(&mut self, stream: Option<Whole<CarriedLink<'c, P::Stream, T>>>)
        ensures { Closes (λ link. None) (λ link. None) stream.entry None None }
    {
        self.ports.close(match stream {
            Some(whole) => Some(whole.map(|carried| carried.ended())),
            None => None,
        });
    }

    fn reset(&mut self, stream: CarriedLink<'c, P::Stream, T>) {
        self.ports.reset(stream.ended());
    }
}
