// A server, as rows are played on it.
use crate::driven::Owner;
use crate::embedded::server::serve;
use crate::event::{EndEvent, EventDetails};
use crate::peer::{Clock, Peer, PeerLink};
use crate::plays::{EndpointCalls, Holds};
use crate::server::told::{Was, put_line};
use ftp_ends::Wants;
use ftp_ports::{Cause, TURNS};
use ftp_server_driver::{Clocked, Control, Data, Turned, drive_server, drive_some};
use ftp_server_model::Far;
use rows_base::{FailingReader, FailingWriter, Paper};
use rows_tree::{FailingTree, show_tree};
use std::alloc::{Allocator, Global};
use std::io::Write;
use std::marker::PhantomData;

/// How many turns are made at a time between those of others.
const SOME: u64 = 2;

/// A server beside its clock, and how its tree grows.
#[derive(Drop)]
pub struct PlayedServer<A, S: Drop> {
    clocked: Clocked<S, Clock, ()>,
    was: Was,
    growth: PhantomData<A>,
}

impl<A: Allocator + Copy, S: Far<A, FailingTree<A>> + Holds> PlayedServer<A, S> {
    pub fn new(server: S) -> PlayedServer<A, S> {
        PlayedServer {
            clocked: Clocked {
                server,
                watch: Clock::still(),
                watcher: (),
            },
            was: Was::new(),
            growth: PhantomData,
        }
    }
}

impl<A: Allocator + Copy, S: Far<A, FailingTree<A>> + Holds> EndpointCalls for PlayedServer<A, S> {
    fn hear(&mut self, piece: &[u8]) -> usize {
        self.clocked.server.hear(piece)
    }

    fn control_out(&mut self, room: &mut [u8]) -> usize {
        self.clocked.server.control_out(room)
    }

    fn data_hear(&mut self, piece: &[u8]) -> usize {
        self.clocked.server.data_hear(piece)
    }

    fn data_out(&mut self, room: &mut [u8]) -> usize {
        self.clocked.server.data_out(room)
    }

    fn happens(&mut self, event: EndEvent, told: EventDetails) {
        match event {
            EndEvent::Listening => self.clocked.server.listening(told.port),
            EndEvent::Portless => self.clocked.server.listen_refused(),
            EndEvent::Opened => self.clocked.server.data_opened(told.host),
            EndEvent::Refused => self.clocked.server.data_refused(),
            EndEvent::Ended => self.clocked.server.data_end(),
            EndEvent::Broke => self.clocked.server.data_fault(),
            EndEvent::Closed => self.clocked.server.data_closed(),
            EndEvent::Cut => self.clocked.server.control_end(),
            EndEvent::Clock => self.clocked.server.clock(told.moment),
        }
    }

    fn wants(&self) -> Wants {
        self.clocked.server.wants()
    }

    fn held(&self) -> usize {
        self.clocked.server.held()
    }

    fn tell(&mut self, paper: &mut Paper) {
        let server = &self.clocked.server;
        self.was.put_end(server, paper);
        if let Some(line) = server.answered() {
            put_line(line, paper);
        }
        self.was = Was::of(server);
    }

    fn begin(&mut self, _alloc: Global, _line: &[u8], paper: &mut Paper) {
        paper.line(b"! no such word");
    }

    fn report(&mut self, _alloc: Global, _paper: &mut Paper) {}

    fn show_told(&self, _paper: &mut Paper) {}

    fn show_tree(&self, alloc: Global, paper: &mut Paper) {
        show_tree(alloc, self.clocked.server.tree().memory(), paper);
    }

    fn drive(
        &mut self,
        _alloc: Global,
        owner: Owner<'_>,
        (mut reader, mut writer): (FailingReader<'_>, FailingWriter),
        peer: &mut Peer,
        paper: &mut Paper,
    ) -> FailingWriter {
        let ended = match owner {
            Owner::Drive => {
                let mut control = Control::new(reader, &mut writer);
                self.clocked.watch = peer.clock();
                if peer.is_among_others() {
                    among_others(&mut self.clocked, &mut control, peer).is_ok()
                } else {
                    drive_server(&mut self.clocked, &mut control, peer).is_ok()
                }
            }
            Owner::Page(_) => serve(
                &mut self.clocked.server,
                (&mut reader, &mut writer),
                peer,
            ).is_ok(),
        };
        if ended {
            paper.put(b"= ended\n");
        }
        writer
    }
}

/// Drives a server as one among others: some turns at a time, with whatever else between.
fn among_others<A, S, W>(
    clocked: &mut Clocked<S, Clock, ()>,
    control: &mut Control<FailingReader<'_>, W>,
    peer: &mut Peer,
) -> Result<(), Cause>
where
    A: Allocator + Copy,
    S: Far<A, FailingTree<A>>,
    W: Write + Drop,
{
    let mut data = Data::new();
    let ended = until_over::<A, S, W>(clocked, control, peer, &mut data);
    peer.let_go(data);
    ended
}

/// Turns until the drive is over, or breaks off: then no data connection stands.
fn until_over<A, S, W>(
    clocked: &mut Clocked<S, Clock, ()>,
    control: &mut Control<FailingReader<'_>, W>,
    peer: &mut Peer,
    data: &mut Data<PeerLink>,
) -> Result<(), Cause>
where
    A: Allocator + Copy,
    S: Far<A, FailingTree<A>>,
    W: Write + Drop,
{
    for _ in 0..TURNS {
        match drive_some::<A, FailingTree<A>, S, _, _, _, _, _>(
            clocked, control, peer, data, SOME,
        )? {
            Turned::Over(()) => return Ok(()),
            Turned::Later | Turned::More => {}
        }
    }
    Ok(())
}
