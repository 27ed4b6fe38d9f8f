// A copy of an event, with texts of its own.
ghost use Rattle.std.specs.Prelude.{◌≡◌, IfOk};

use crate::events::event::Event;
use ftp_facts::Text;
use ftp_operation::Op;
use std::alloc::{AllocError, Allocator};

impl<A: Allocator + Copy> Event<A> {
    /// The same event, with texts of its own: a world takes an event whole, and who lends one keeps it.
    pub fn copied(&self, alloc: A) -> Result<Self, AllocError>
        ensures { IfOk result (λ event. event ≡ self.now) }
    {
        match self {
            Event::Deliver(queue, count) => Ok(Event::Deliver(*queue, *count)),
            Event::Open => Ok(Event::Open),
            Event::Refuse => Ok(Event::Refuse),
            Event::End(queue) => Ok(Event::End(*queue)),
            Event::Break => Ok(Event::Break),
            Event::EndControl => Ok(Event::EndControl),
            Event::Next(op, moment) => Ok(Event::Next(op_of(op, alloc)?, *moment)),
            Event::Upload(path, octets, how, moment) => {
                let path = own(path, alloc)?;
                let octets = own(octets, alloc)?;
                Ok(Event::Upload(path, octets, *how, *moment))
            }
        }
    }
}

/// The same text, of its own.
fn own<A: Allocator + Copy>(text: &Text<A>, alloc: A) -> Result<Text<A>, AllocError>
    ensures { IfOk result (λ copy. copy ≡ text.now) }
{
    Text::copy_of(alloc, text.as_slice())
}

/// The same operation.
fn op_of<A: Allocator + Copy>(op: &Op<Text<A>>, alloc: A) -> Result<Op<Text<A>>, AllocError>
    ensures { IfOk result (λ copy. copy ≡ op.now) }
{
    match op {
        Op::Where => Ok(Op::Where),
        Op::ChangeDir(path) => Ok(Op::ChangeDir(own(path, alloc)?)),
        Op::Up => Ok(Op::Up),
        Op::MakeDir(path) => Ok(Op::MakeDir(own(path, alloc)?)),
        Op::RemoveDir(path) => Ok(Op::RemoveDir(own(path, alloc)?)),
        Op::Delete(path) => Ok(Op::Delete(own(path, alloc)?)),
        Op::Rename(from, to) => Ok(Op::Rename(own(from, alloc)?, own(to, alloc)?)),
        Op::Put(path, all, how) => Ok(Op::Put(own(path, alloc)?, own(all, alloc)?, *how)),
        Op::Append(path, more, how) => Ok(Op::Append(own(path, alloc)?, own(more, alloc)?, *how)),
        Op::PutFrom(path, from, more, how) => {
            let path = own(path, alloc)?;
            Ok(Op::PutFrom(path, *from, own(more, alloc)?, *how))
        }
        Op::Get(path, how) => Ok(Op::Get(own(path, alloc)?, *how)),
        Op::GetFrom(path, from, how) => Ok(Op::GetFrom(own(path, alloc)?, *from, *how)),
        Op::Peek(path, most, how) => Ok(Op::Peek(own(path, alloc)?, *most, *how)),
        Op::Size(path, how) => Ok(Op::Size(own(path, alloc)?, *how)),
        Op::Modified(path) => Ok(Op::Modified(own(path, alloc)?)),
        Op::Facts(path) => Ok(Op::Facts(own(path, alloc)?)),
        Op::List(path, how) => Ok(Op::List(own(path, alloc)?, *how)),
        Op::Names(path, how) => Ok(Op::Names(own(path, alloc)?, *how)),
        Op::Text(verb, path, how) => Ok(Op::Text(*verb, own(path, alloc)?, *how)),
    }
}
