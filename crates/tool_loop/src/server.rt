// The slot of a server: its connections, and the moment that it is for it.
use crate::joining::Joins;
use crate::ports::LoopPorts;
use crate::socket::{ControlSocket, Socket};
use ftp_facts::Moment;
use ftp_ports::{Cause, Watch};
use ftp_server_driver::{Clocked, Control, Data, Turned, drive_some};
use ftp_server_model::Far;
use ftp_tree_memory::MemTree;
use std::alloc::Global;

/// A clock that stands until it is set; at first at the start of 1970.
#[derive(Drop)]
pub(crate) struct OrderWatch {
    moment: Moment,
}

impl Watch for OrderWatch {
    fn moment(&mut self) -> Moment {
        self.moment
    }
}

/// Where the drive of a server stands.
#[derive(Clone, Copy)]
enum DriveState {
    /// It goes on.
    UnderWay,
    /// The server was done, or the drive broke off.
    Over,
}

/// A server over a tree in memory, beside its connections.
pub(crate) struct ServerSlot<'h, J, S>
where
    J: Joins,
    S: Far<Global, MemTree<Global>>,
{
    clocked: Clocked<S, OrderWatch, ()>,
    line: &'h Socket,
    control: Control<ControlSocket<'h>, ControlSocket<'h>>,
    ports: LoopPorts<'h, J>,
    data: Data<Socket>,
    state: DriveState,
}

/// Its data connection is closed, if one stands.
impl<'h, J, S> Drop for ServerSlot<'h, J, S>
where
    J: Joins,
    S: Far<Global, MemTree<Global>>,
{
    fn drop(self) {
        let Self {
            clocked: _,
            line: _,
            control: _,
            ports,
            data,
            state: _,
        } = self;
        let mut ports = ports;
        data.finish(&mut ports);
    }
}

impl<'h, J, S> ServerSlot<'h, J, S>
where
    J: Joins,
    S: Far<Global, MemTree<Global>>,
{
    /// A server at its control connection.
    pub(crate) fn new(
        server: S,
        line: &'h Socket,
        ports: LoopPorts<'h, J>,
    ) -> ServerSlot<'h, J, S> {
        ServerSlot {
            clocked: Clocked {
                server,
                watch: OrderWatch {
                    moment: Moment { seconds: 0 },
                },
                watcher: (),
            },
            line,
            control: Control::new(ControlSocket::new(line), ControlSocket::new(line)),
            ports,
            data: Data::new(),
            state: DriveState::UnderWay,
        }
    }

    /// The moment that it is from now on.
    pub(crate) fn set_clock(&mut self, moment: Moment) {
        self.clocked.watch.moment = moment;
    }

    /// A turn of its drive, where that would not wait; says whether one was made. Behind the last one it says nothing more.
    pub(crate) fn turn(&mut self) -> bool {
        let DriveState::UnderWay = self.state else {
            return false;
        };
        match self.drive() {
            Ok(Turned::Later) => false,
            Ok(Turned::More) => true,
            Ok(Turned::Over(())) => self.end(),
            Err(_) => self.end(),
        }
    }

    /// The drive is over, behind a turn.
    fn end(&mut self) -> bool {
        self.state = DriveState::Over;
        self.line.end();
        true
    }

    fn drive(&mut self) -> Result<Turned<()>, Cause> {
        drive_some::<
            Global,
            MemTree<Global>,
            S,
            ControlSocket<'h>,
            ControlSocket<'h>,
            LoopPorts<'h, J>,
            OrderWatch,
            (),
        >(
            &mut self.clocked,
            &mut self.control,
            &mut self.ports,
            &mut self.data,
            1,
        )
    }
}
