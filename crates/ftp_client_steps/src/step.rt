// The steps of an operation, one after the reply to the other (RFC 959, section 5.4).
ghost use Rattle.std.specs.Prelude.{◌≡◌};
ghost use Rattle.ftp_client_model.specs.Plan.{alone_step, first_step, from_kind, from_mode, from_structure, next_step, opening_of, opening_step, settings_behind, step_behind_opening};
ghost use Rattle.ftp_client_model.specs.Plan as plan;
ghost use Rattle.ftp_settings.specs.Representation.{same_kind, same_mode, same_structure};

use crate::request::{asked_settings, how_of, offset_of};
use ftp_client_model::client::Step;
use ftp_facts::Text;
use ftp_operation::{How, Op};
use ftp_settings::{Kind, Mode, Representation, Structure};
use std::alloc::Allocator;

/// The first step of an operation, where the server has these settings: TYPE, STRU and MODE in that order, each only where it
/// differs, and behind them the opening.
pub fn first_step<A: Allocator + Copy>(now: Representation, op: &Op<Text<A>>) -> Step
    ensures { result ≡ first_step now op.now }
{
    let opening = opening_of(op);
    match asked_settings(op) {
        None => opening,
        Some(wanted) => from_kind(now, wanted, opening),
    }
}

/// The step behind one that was answered well.
pub fn next_step<A: Allocator + Copy>(now: Representation, op: &Op<Text<A>>, step: Step) -> Step
    ensures { result ≡ next_step now op.now step }
{
    match step {
        Step::Kind => match asked_settings(op) {
            None => opening_of(op),
            Some(wanted) => from_structure(now, wanted, opening_of(op)),
        },
        Step::Structure => match asked_settings(op) {
            None => opening_of(op),
            Some(wanted) => from_mode(now, wanted, opening_of(op)),
        },
        Step::Mode => opening_of(op),
        Step::Listen => Step::Port,
        Step::Passive => Step::Connect,
        Step::Port | Step::Connect => step_behind_opening(offset_of(op)),
        Step::Restart | Step::Source | Step::Last => Step::Last,
    }
}

/// The settings once a step was accepted. An operation without settings changes none.
pub fn settings_behind(
    step: Step,
    now: Representation,
    wanted: Option<Representation>,
) -> Representation
    ensures { result ≡ settings_behind step now wanted }
{
    let Some(wanted) = wanted else {
        return now;
    };
    match step {
        Step::Kind => Representation {
            kind: wanted.kind,
            ..now
        },
        Step::Structure => Representation {
            structure: wanted.structure,
            ..now
        },
        Step::Mode => Representation {
            mode: wanted.mode,
            ..now
        },
        _ => now,
    }
}

/// From TYPE on.
fn from_kind(now: Representation, wanted: Representation, behind: Step) -> Step
    ensures { result ≡ from_kind now wanted behind }
{
    if is_same_kind(now.kind, wanted.kind) {
        from_structure(now, wanted, behind)
    } else {
        Step::Kind
    }
}

/// From STRU on.
fn from_structure(now: Representation, wanted: Representation, behind: Step) -> Step
    ensures { result ≡ from_structure now wanted behind }
{
    if is_same_structure(now.structure, wanted.structure) {
        from_mode(now, wanted, behind)
    } else {
        Step::Structure
    }
}

/// From MODE on.
fn from_mode(now: Representation, wanted: Representation, behind: Step) -> Step
    ensures { result ≡ from_mode now wanted behind }
{
    if is_same_mode(now.mode, wanted.mode) {
        behind
    } else {
        Step::Mode
    }
}

/// Behind the settings: the opening of a transfer's data connection, or what an operation without one sends first.
fn opening_of<A: Allocator + Copy>(op: &Op<Text<A>>) -> Step
    ensures { result ≡ opening_of (plan.how_of op.now) op.now }
{
    match how_of(op) {
        None => alone_step(op),
        Some(how) => opening_step(how),
    }
}

/// Of an operation without a transfer: a rename names its source first.
fn alone_step<A: Allocator + Copy>(op: &Op<Text<A>>) -> Step
    ensures { result ≡ alone_step op.now }
{
    match op {
        Op::Rename(_, _) => Step::Source,
        _ => Step::Last,
    }
}

/// The client listens before it sends PORT, and connects after the reply to PASV.
fn opening_step(how: How) -> Step
    ensures { result ≡ opening_step how }
{
    if how.active {
        Step::Listen
    } else {
        Step::Passive
    }
}

/// Behind the opening: REST where there is an offset, and 0 is one (RFC 3659, section 5).
fn step_behind_opening(offset: Option<u64>) -> Step
    ensures { result ≡ step_behind_opening offset }
{
    match offset {
        None => Step::Last,
        Some(_) => Step::Restart,
    }
}

fn is_same_kind(one: Kind, other: Kind) -> bool
    ensures { result ≡ same_kind one other }
{
    one == other
}

fn is_same_structure(one: Structure, other: Structure) -> bool
    ensures { result ≡ same_structure one other }
{
    one == other
}

fn is_same_mode(one: Mode, other: Mode) -> bool
    ensures { result ≡ same_mode one other }
{
    one == other
}
