// What may happen to a world.
use crate::queues::Queue;
use ftp_facts::{Moment, Text};
use ftp_operation::{How, Op};
use std::alloc::Allocator;

/// What may happen to a world (RFC 959, section 2.3). Moments are those of the server's clock.
#[derive(Drop)]
pub enum Event<A: Allocator + Copy> {
    /// So many octets go over a queue: its sender fills it up to them, and the first are offered to its receiver, which takes some. Of none, one call
    /// of the sender moves at most 4,096, and none is offered (own choice).
    Deliver(Queue, usize),
    /// A wanted data link opens.
    Open,
    /// A wanted data link is refused.
    Refuse,
    /// The receiver of a queue is told that its sender has closed.
    End(Queue),
    /// The data link breaks, and what is on its way over it is lost.
    Break,
    /// The control connection ends for both ends, and what is on its way over it is lost.
    EndControl,
    /// The client begins an operation.
    Next(Op<Text<A>>, Moment),
    /// It begins an upload over breaks: the path and the octets.
    Upload(Text<A>, Text<A>, How, Moment),
}
