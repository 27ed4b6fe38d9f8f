// A client, as rows are played on it.
use crate::client::answer::{show_answer, show_told};
use crate::driven::Owner;
use crate::embedded::client::perform;
use crate::event::{EndEvent, EventDetails};
use crate::peer::Peer;
use crate::plays::{EndpointCalls, Holds};
use ftp_client_driver::{Control, Data, Driven, drive_client};
use ftp_client_model::{Busy, Near};
use ftp_ends::Wants;
use ftp_facts::Text;
use ftp_operation::{Answer, How, Op};
use rows_base::{FailingReader, FailingWriter, Paper, cut, fixed, number};
use std::alloc::{AllocError, Allocator, Global};
use tool_script::{LineFault, Order, order_of, put_field};

/// A client, and what the texts of its operations grow by.
#[derive(Drop)]
pub struct PlayedClient<A, C: Drop> {
    client: C,
    heap: A,
}

impl<A: Allocator + Copy, C: Near<A> + Holds> PlayedClient<A, C> {
    pub fn new(client: C, heap: A) -> PlayedClient<A, C> {
        PlayedClient { client, heap }
    }

    /// Begins what an order asks, from the next place where it is past that of the line; whether no other is begun.
    fn starts(&mut self, order: Order<Text<A>>, is_past: bool) -> bool {
        match order.into_parts() {
            Ok(mut op) => {
                if is_past {
                    count_up(&mut op);
                }
                self.start(op)
            }
            Err((path, octets, how)) => self.upload(path, octets, how),
        }
    }

    fn start(&mut self, op: Op<Text<A>>) -> bool {
        match self.client.start(op) {
            Ok(()) => true,
            Err(Busy { back: _ }) => false,
        }
    }

    fn upload(&mut self, path: Text<A>, octets: Text<A>, how: How) -> bool {
        match self.client.upload(path, octets, how) {
            Ok(()) => true,
            Err(Busy { back: _ }) => false,
        }
    }
}

/// The same from the place behind: no line can say 10^18.
fn count_up<A: Allocator + Copy>(op: &mut Op<Text<A>>) {
    match op {
        Op::GetFrom(_, place, _) | Op::Peek(_, place, _) | Op::PutFrom(_, place, _, _) => {
            *place = place.saturating_add(1);
        }
        _ => {}
    }
}

/// The order of a line; its last field may be written as `@10000`, so many octets of the fixed sequence.
fn ordered<A: Allocator + Copy>(
    alloc: Global,
    heap: A,
    line: &[u8],
) -> Result<Order<Text<A>>, LineFault> {
    let (front, count) = cut(line, b'@');
    if count.is_empty() {
        return order_of(heap, line);
    }
    match spelled(alloc, front, number(count)) {
        Ok(line) => order_of(heap, line.as_slice()),
        Err(AllocError) => Err(LineFault::Memory),
    }
}

/// A line, and behind it a field of so many octets.
fn spelled(alloc: Global, front: &[u8], count: u64) -> Result<Vec<u8>, AllocError> {
    let mut line = Vec::new(alloc);
    line.extend_from_slice(front)?;
    for place in 0..count {
        put_field(&[fixed(place)], &mut line)?;
    }
    Ok(line)
}

impl<A: Allocator + Copy, C: Near<A> + Holds> EndpointCalls for PlayedClient<A, C> {
    fn hear(&mut self, piece: &[u8]) -> usize {
        self.client.hear(piece)
    }

    fn control_out(&mut self, room: &mut [u8]) -> usize {
        self.client.control_out(room)
    }

    fn data_hear(&mut self, piece: &[u8]) -> usize {
        self.client.data_hear(piece)
    }

    fn data_out(&mut self, room: &mut [u8]) -> usize {
        self.client.data_out(room)
    }

    fn happens(&mut self, event: EndEvent, told: EventDetails) {
        match event {
            EndEvent::Listening => self.client.listening(told.port),
            EndEvent::Portless => self.client.listen_refused(),
            EndEvent::Opened => self.client.data_opened(told.host),
            EndEvent::Refused => self.client.data_refused(),
            EndEvent::Ended => self.client.data_end(),
            EndEvent::Broke => self.client.data_fault(),
            EndEvent::Closed => self.client.data_closed(),
            EndEvent::Cut => self.client.control_end(),
            EndEvent::Clock => {}
        }
    }

    fn wants(&self) -> Wants {
        self.client.wants()
    }

    fn held(&self) -> usize {
        self.client.held()
    }

    fn tell(&mut self, _paper: &mut Paper) {}

    fn begin(&mut self, alloc: Global, line: &[u8], paper: &mut Paper) {
        let past = line.strip_prefix(b"past ");
        match ordered(alloc, self.heap, past.unwrap_or(line)) {
            Ok(order) => if !self.starts(order, past.is_some()) {
                paper.line(b"! busy");
            },
            Err(LineFault::Memory) => paper.line(b"! no memory"),
            Err(LineFault::Unfit) => paper.line(b"! no such word"),
        }
    }

    fn report(&mut self, alloc: Global, paper: &mut Paper) {
        if let Some(answer) = self.client.report() {
            show_answer(alloc, &answer, paper);
            drop(answer);
        }
    }

    fn show_told(&self, paper: &mut Paper) {
        show_told(self.client.last_reply(), self.client.came(), paper);
    }

    fn show_tree(&self, _alloc: Global, _paper: &mut Paper) {}

    fn drive(
        &mut self,
        alloc: Global,
        owner: Owner<'_>,
        (mut reader, mut writer): (FailingReader<'_>, FailingWriter),
        peer: &mut Peer,
        paper: &mut Paper,
    ) -> FailingWriter {
        let answer = match owner {
            Owner::Drive => {
                let mut control = Control::new(reader, &mut writer);
                let mut data = Data::new();
                let Driven { report, off: _ } = drive_client(
                    &mut self.client,
                    &mut control,
                    peer,
                    &mut data,
                );
                data.finish(peer);
                report
            }
            Owner::Page(line) => match performed(alloc, self.heap, line) {
                Some(op) => perform(&mut self.client, op, (&mut reader, &mut writer), peer).ok(),
                None => Some(Answer::Memory),
            },
        };
        tell(alloc, &answer, paper);
        drop(answer);
        writer
    }
}

/// What a client that was driven reports; nothing where it was broken off.
fn tell<A: Allocator + Copy>(alloc: Global, answer: &Option<Answer<A>>, paper: &mut Paper) {
    match answer {
        None | Some(Answer::Lost) => {}
        Some(answer) => show_answer(alloc, answer, paper),
    }
}

/// The operation of a line; none where memory is refused.
fn performed<A: Allocator + Copy>(alloc: Global, heap: A, line: &[u8]) -> Option<Op<Text<A>>> {
    match ordered(alloc, heap, line) {
        Ok(order) => order.into_parts().ok(),
        Err(_) => None,
    }
}
