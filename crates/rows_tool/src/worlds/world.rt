// A world as rows are played on it.
use crate::worlds::plays::{Became, HeldOctets, WorldCalls};
use crate::worlds::shown::{put_marks, put_reports};
use crate::worlds::words::Happening;
use ftp_client_model::Near;
use ftp_facts::{Moment, Text};
use ftp_operation::{How, Op};
use ftp_pair::{Event, World};
use ftp_server_model::SureFar;
use ftp_settings::{Kind, Mode, Representation, Structure};
use ftp_tree_memory::HeldTree;
use rows_base::Paper;
use rows_ends::Holds;
use rows_tree::show_tree;
use std::alloc::{AllocError, Allocator, Global};
use tool_script::{Order, moment_of, order_of};

/// A world, and how it grows.
#[derive(Drop)]
pub struct PlayedWorld<A: Allocator + Copy, T: HeldTree<A>, N: Near<A>, F: SureFar<A, T>> {
    pub world: World<A, T, N, F>,
    pub heap: A,
}

impl<A: Allocator + Copy, T: HeldTree<A>, N: Near<A>, F: SureFar<A, T>> PlayedWorld<A, T, N, F> {
    fn step(&mut self, event: Event<A>) -> Became {
        match self.world.step(event) {
            Ok(true) => Became::Happened,
            Ok(false) => Became::Impossible,
            Err(_) => Became::NoMemory,
        }
    }
}

/// Octets as they are, over a passive link.
const IMAGE: How = How {
    representation: Representation {
        kind: Kind::Image,
        structure: Structure::File,
        mode: Mode::Stream,
    },
    marks: false,
    active: false,
    extended: false,
};

/// The event in which an order begins.
fn order_event<A: Allocator + Copy>(order: Order<Text<A>>, moment: Moment) -> Event<A> {
    match order.into_parts() {
        Ok(op) => Event::Next(op, moment),
        Err((path, octets, how)) => Event::Upload(path, octets, how, moment),
    }
}

/// That event alone, as a list.
fn beginning_of<A: Allocator + Copy>(
    alloc: Global,
    order: Order<Text<A>>,
    moment: Moment,
) -> Result<Vec<Event<A>>, AllocError> {
    let mut events = Vec::new(alloc);
    events.push(order_event(order, moment))?;
    Ok(events)
}

/// The event in which an upload of octets to the file `f` begins.
fn upload_event<A: Allocator + Copy>(
    heap: A,
    octets: &[u8],
    moment: Moment,
) -> Result<Event<A>, AllocError> {
    let path = Text::copy_of(heap, b"f")?;
    let octets = Text::copy_of(heap, octets)?;
    Ok(Event::Next(Op::Put(path, octets, IMAGE), moment))
}

fn happening_event<A: Allocator + Copy>(happening: Happening) -> Event<A> {
    match happening {
        Happening::Deliver(queue, count) => Event::Deliver(queue, count),
        Happening::Open => Event::Open,
        Happening::Refuse => Event::Refuse,
        Happening::End(queue) => Event::End(queue),
        Happening::Break => Event::Break,
        Happening::EndControl => Event::EndControl,
    }
}

fn events_of<A: Allocator + Copy>(
    alloc: Global,
    happenings: &[Happening],
) -> Result<Vec<Event<A>>, AllocError> {
    let mut events = Vec::new(alloc);
    for happening in happenings {
        events.push(happening_event(*happening))?;
    }
    Ok(events)
}

impl<A: Allocator + Copy, T: HeldTree<A>, N: Near<A> + Holds, F: SureFar<A, T> + Holds> WorldCalls
    for PlayedWorld<A, T, N, F> {
    fn happens(&mut self, happening: Happening) -> Became {
        self.step(happening_event(happening))
    }

    fn begins(&mut self, line: &[u8], number: u64) -> Became {
        let Some(moment) = moment_of(number) else {
            return Became::Impossible;
        };
        match order_of(self.heap, line) {
            Ok(order) => self.step(order_event(order, moment)),
            Err(_) => Became::NoMemory,
        }
    }

    fn begins_by_run(&mut self, alloc: Global, line: &[u8], number: u64) -> Became {
        let Some(moment) = moment_of(number) else {
            return Became::Impossible;
        };
        let Ok(order) = order_of(self.heap, line) else {
            return Became::NoMemory;
        };
        let Ok(events) = beginning_of(alloc, order, moment) else {
            return Became::NoMemory;
        };
        match self.world.run(events.as_slice()) {
            // It began where it is the next one of those that have marks.
            Ok(()) if self.world.marks(number as usize).is_some() => Became::Happened,
            Ok(()) => Became::Impossible,
            Err(_) => Became::NoMemory,
        }
    }

    fn uploads(&mut self, octets: &[u8], number: u64) -> Became {
        let Some(moment) = moment_of(number) else {
            return Became::Impossible;
        };
        match upload_event(self.heap, octets, moment) {
            Ok(event) => self.step(event),
            Err(_) => Became::NoMemory,
        }
    }

    fn runs(&mut self, alloc: Global, happenings: &[Happening]) -> Became {
        let Ok(events) = events_of(alloc, happenings) else {
            return Became::NoMemory;
        };
        match self.world.run(events.as_slice()) {
            Ok(()) => Became::Happened,
            Err(_) => Became::NoMemory,
        }
    }

    fn settles(&mut self) -> bool {
        self.world.settle();
        self.world.is_quiet() && self.world.finished()
    }

    fn is_calm(&self) -> bool {
        self.world.is_calm()
    }

    fn held(&self) -> HeldOctets {
        HeldOctets {
            client: self.world.near().held(),
            server: self.world.far().held(),
        }
    }

    fn put_reports(&self, alloc: Global, from: usize, paper: &mut Paper) -> usize {
        put_reports(alloc, self.world.reports(), from, paper);
        self.world.reports().len()
    }

    fn put_marks(&self, number: u64, paper: &mut Paper) {
        match self.world.marks(number as usize) {
            Some(marks) => put_marks(marks, paper),
            None => paper.line(b"! no such order"),
        }
    }

    fn put_tree(&self, alloc: Global, paper: &mut Paper) {
        show_tree(alloc, self.world.tree(), paper);
    }
}
