// An answer that is let go, in a function of its own: a derived drop is proved again wherever a value is let go.
use ftp_operation::Answer;
use std::alloc::Allocator;

/// Lets an answer go.
pub(crate) fn let_go<A: Allocator + Copy>(_answer: Answer<A>) {}
