// What a world is made of.
use crate::queues::{Channel, Control, Link, Mark};
use ftp_operation::Answer;
use std::alloc::Allocator;
use std::marker::PhantomData;

/// Two ends, and what lies between them. `calm` is true while neither end was refused memory and no device failed.
#[derive(Drop)]
pub struct Parts<A: Allocator + Copy, T, N: Drop, F: Drop> {
    pub near: N,
    pub far: F,
    pub control_to_server: Channel<A>,
    pub control_to_client: Channel<A>,
    pub data_to_server: Channel<A>,
    pub data_to_client: Channel<A>,
    pub control: Control,
    pub link: Link,
    pub came: u64,
    pub listens: u16,
    pub marks: Vec<Vec<Mark, A>, A>,
    pub reports: Vec<Answer<A>, A>,
    pub cutoff: Option<usize>,
    pub taken: Channel<A>,
    pub calm: bool,
    pub tree: PhantomData<T>,
}
