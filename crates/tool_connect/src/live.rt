// A client between its connections, which meets `ClientSession`: an answer is the report of its drive.
ghost use Rattle.std.specs.Global.{Global};
ghost use Rattle.std.specs.Prelude.{◌≡◌, ℕ, List, None};
ghost use Rattle.ftp_ports.specs.Channel.{no_channel};
ghost use Rattle.ftp_ports.specs.Machine.{held};
ghost use Rattle.ftp_client_driver.specs.Side.{client_beside};
ghost use Rattle.ftp_driver.specs.Standing.{HasNone};
ghost use Rattle.ftp_operation.specs.Answer.{said_of};
ghost use Rattle.ftp_operation.specs.declared.answer.Answer.{Answer};
ghost use Rattle.tool_session.specs.declared.request.Request.{Request};
ghost use Rattle.tool_connect.specs.Answering.{Answers};

use ftp_client_driver::{Control, Data, Driven, drive_client};
use ftp_client_model::Near;
use ftp_client_stream::CarriedPorts;
use ftp_operation::Answer;
use ftp_ports::{Duplex, Ports};
use std::alloc::Global;
use std::cell::Cell;
use std::io::{Read, Write};
use tool_session::{ClientSession, DataEnding, FromStreamBody, Request, RequestState, begin};

/// Data connections that are counted.
pub(crate) trait Opens: Ports {
    /// How many were opened so far.
    fn opened(&self) -> u32;

    /// Waits a moment until the peer has ended the last one too.
    fn finish(&mut self);
}

/// A client, its control connection, and its data connections, of which none stands behind an answer.
#[derive(Drop)]
pub(crate) struct LiveSession<'a, 'b, 'c, 'd, N, C, W, P, S> {
    pub(crate) client: N,
    pub(crate) control: &'a mut Control<C, W>,
    pub(crate) ports: &'b mut P,
    /// Room for its data connections.
    pub(crate) data: &'c mut Data<S>,
    /// What its data connections know of the request under way.
    pub(crate) request_state: &'d RequestState,
}

impl<'a, 'b, 'c, 'd, N, C, W, P, S> ClientSession for LiveSession<'a, 'b, 'c, 'd, N, C, W, P, S>
where
    N: Near<Global>,
    C: Read + Drop,
    W: Write + Drop,
    P: Opens<Stream = S>,
    S: Duplex,
{
    // (where no data connection stands, and then none does)
    ghost answers = { λ request answer old new. (HasNone S.remaining S.contents old.data.now → Answers request (said_of answer) new.control.now.failed
        (client_beside C.remaining W.contents (held (N.client old.client) (no_channel (P.history old.ports.now))) old.control.now)
        (client_beside C.remaining W.contents (held (N.client new.client) (no_channel (P.history new.ports.now))) new.control.now))
        × HasNone S.remaining S.contents new.data.now };

    ghost carried = { λ request answer old new. Answers request (said_of answer) new.control.now.failed
        (client_beside C.remaining W.contents (held (N.client old.client) (no_channel None)) old.control.now)
        (client_beside C.remaining W.contents (held (N.client new.client) (no_channel None)) new.control.now) };

    ghost keeps = { λ came session. came ≡ (N.told session.client).came };

    fn answer(&mut self, request: Request) -> Answer<Global> {
        let mut request = request;
        self.request_state.begin(&request);
        begin(&mut self.client, &mut request);
        let Driven { report, off: _ } = drive_client(
            &mut self.client,
            self.control,
            self.ports,
            self.data,
        );
        self.request_state
            .reported(&report, self.client.last_reply());
        match report {
            Some(answer) => answer,
            None => Answer::Lost,
        }
    }

    fn answer_carried<T: FromStreamBody>(
        &mut self,
        request: Request,
        home: &Cell<Option<T>>,
    ) -> Answer<Global> {
        let mut request = request;
        self.request_state.begin(&request);
        begin(&mut self.client, &mut request);
        let mut ports = CarriedPorts::new(self.ports, home);
        let mut data = Data::new();
        let Driven { report, off: _ } = drive_client(
            &mut self.client,
            self.control,
            &mut ports,
            &mut data,
        );
        data.finish(&mut ports);
        self.request_state
            .reported(&report, self.client.last_reply());
        match report {
            Some(answer) => answer,
            None => Answer::Lost,
        }
    }

    fn came(&self) -> &[u8] {
        self.client.came()
    }

    fn opened(&self) -> u32 {
        self.ports.opened()
    }

    fn ending(&self) -> DataEnding {
        self.request_state.ending()
    }
}
