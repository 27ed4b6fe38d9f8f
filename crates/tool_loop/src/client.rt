// The slot of a client: its connections, and the report of its operation.
use crate::joining::Joins;
use crate::ports::LoopPorts;
use crate::socket::{ControlSocket, Socket};
use ftp_client_driver::{Control, Data, Driven, Turned, drive_some};
use ftp_client_model::{Busy, Near};
use ftp_facts::Text;
use ftp_operation::{Answer, How, Op};
use std::alloc::Global;

/// Where an operation stands.
#[derive(Drop)]
enum OperationState {
    /// None was begun, or its report was given.
    Nothing,
    UnderWay,
    Reported(Answer<Global>),
}

/// A client, beside its connections.
pub(crate) struct ClientSlot<'h, J: Joins, N: Near<Global>> {
    client: N,
    line: &'h Socket,
    control: Control<ControlSocket<'h>, ControlSocket<'h>>,
    ports: LoopPorts<'h, J>,
    data: Data<Socket>,
    asked: OperationState,
}

/// Its data connection is closed, if one stands.
impl<'h, J: Joins, N: Near<Global>> Drop for ClientSlot<'h, J, N> {
    fn drop(self) {
        let Self {
            client: _,
            line: _,
            control: _,
            ports,
            data,
            asked: _,
        } = self;
        let mut ports = ports;
        data.finish(&mut ports);
    }
}

impl<'h, J: Joins, N: Near<Global>> ClientSlot<'h, J, N> {
    /// A client at its control connection.
    pub(crate) fn new(
        client: N,
        line: &'h Socket,
        ports: LoopPorts<'h, J>,
    ) -> ClientSlot<'h, J, N> {
        ClientSlot {
            client,
            line,
            control: Control::new(ControlSocket::new(line), ControlSocket::new(line)),
            ports,
            data: Data::new(),
            asked: OperationState::Nothing,
        }
    }

    /// Begins an operation, if no other is under way.
    pub(crate) fn start(&mut self, op: Op<Text<Global>>) -> Result<(), Busy<Op<Text<Global>>>> {
        self.client.start(op)?;
        self.asked = OperationState::UnderWay;
        Ok(())
    }

    /// Begins an upload that goes on after breaks, if no other operation is under way.
    pub(crate) fn upload(
        &mut self,
        path: Text<Global>,
        octets: Text<Global>,
        how: How,
    ) -> Result<(), Busy<(Text<Global>, Text<Global>)>> {
        self.client.upload(path, octets, how)?;
        self.asked = OperationState::UnderWay;
        Ok(())
    }

    /// The report, if it is there; it is given once.
    pub(crate) fn report(&mut self) -> Option<Answer<Global>> {
        match std::mem::replace(&mut self.asked, OperationState::Nothing) {
            OperationState::Reported(answer) => Some(answer),
            OperationState::Nothing | OperationState::UnderWay => None,
        }
    }

    /// A turn of the drive of its operation, where that would not wait; says whether one was made. One that breaks off says nothing more.
    pub(crate) fn turn(&mut self) -> bool {
        let OperationState::UnderWay = &self.asked else {
            return false;
        };
        match self.drive() {
            Turned::Later => false,
            Turned::More => true,
            Turned::Over(driven) => {
                self.answered(driven);
                true
            }
        }
    }

    /// The drive is over.
    fn answered(&mut self, driven: Driven<Global>) {
        let Driven { report, off } = driven;
        self.asked = match report {
            Some(answer) => OperationState::Reported(answer),
            None => OperationState::Nothing,
        };
        if off.is_some() {
            self.line.end();
        }
    }

    fn drive(&mut self) -> Turned<Driven<Global>> {
        drive_some::<Global, N, ControlSocket<'h>, ControlSocket<'h>, LoopPorts<'h, J>>(
            &mut self.client,
            &mut self.control,
            &mut self.ports,
            &mut self.data,
            1,
        )
    }
}
