// How octets are held.
use crate::pages::Pages;
use std::alloc::Allocator;
use std::rc::Rc;

/// By one alone, who may add to them, or by several, for whom they stay as they are.
#[derive(Drop)]
pub(crate) enum Kept<A: Allocator + Copy> {
    Own(Pages<A>),
    Shared(Rc<Pages<A>, A>),
}
