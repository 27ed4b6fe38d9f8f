// An upload that goes on over breaks, as a run of operations, each chosen by the answer of the one before (own choice: RFC 959,
// section 3.5, leaves the recovery of a transfer to the user).
ghost use Rattle.std.specs.Prelude.{◌≡◌, [], IfOk, IsTrue, OnErr, Some, is_some, true, unwrap_or};
ghost use Rattle.std.specs.Bool.{then_some};
ghost use Rattle.ftp_operation.specs.Answer.{said_of};
ghost use Rattle.ftp_operation.specs.Operation.{can_be_sent};
ghost use Rattle.ftp_client_model.specs.Tries.{after_size, after_try, counts_as_file, first_try, is_size, next_in, over_breaks, run_of, try_behind, whole_put};
ghost use Rattle.ftp_client_steps.specs.Tries.{all_octets, lent, run_in, upload_of_run};

use crate::tries::MOST_TRIES;
use ftp_facts::Text;
use ftp_operation::{Answer, How, Op};
use ftp_path::is_path_text;
use ftp_reply::code::UNAVAILABLE;
use ftp_settings::{Kind, Representation, Structure};
use std::alloc::{AllocError, Allocator};
use std::mem;

/// An upload over breaks that is under way.
#[derive(Drop)]
pub struct Run<A: Allocator + Copy> {
    pub path: Text<A>,
    /// All octets of the file. They are lent to the operation under way while that is a Put, so that they are held once.
    pub octets: Option<Text<A>>,
    pub how: How,
    /// How many Put and PutFrom may still begin.
    pub left: u64,
}

/// Whether an upload over breaks can be sent: in type I and file structure, to a path text.
pub fn can_be_tried<A: Allocator + Copy>(path: &Text<A>, octets: &Text<A>, how: How) -> bool
    ensures { result ≡ can_be_sent (first_try (over_breaks path.now octets.now how)) }
{
    counts_as_file(how.representation) && is_path_text(path.as_slice())
}

/// The first try of an upload that can be sent, and the run that it begins, which lends it all octets.
#[tactic(auto, using(crate::proofs::TriesLemmas::first_is))]
pub fn first_try<A: Allocator + Copy>(
    path: Text<A>,
    octets: Text<A>,
    how: How,
    alloc: &A,
) -> Result<(Op<Text<A>>, Run<A>), AllocError>
    requires { can_be_sent (first_try (over_breaks path octets how)) ≡ true }
    // Witness: equations, of what is made where memory was not refused.
    ensures op { IfOk result (λ begun. begun.0 ≡ first_try (over_breaks path octets how)) }
    ensures run { IfOk result (λ begun. run_in begun.0 begun.1 ≡ run_of (over_breaks path octets how)) }
{
    let op = Op::Put(copied(&path, alloc)?, octets, how);
    let run = Run {
        path,
        octets: None,
        how,
        left: MOST_TRIES - 1,
    };
    Ok((op, run))
}

/// What follows an operation that was answered so takes its place; `false` says that nothing does. Behind the last try nothing does.
/// Refused memory, nothing changes; where nothing follows none is taken.
pub fn next_in<A: Allocator + Copy>(
    run: &mut Run<A>,
    op: &mut Op<Text<A>>,
    answer: &Answer<A>,
    alloc: &A,
) -> Result<bool, AllocError>
    // Witness of next, run, err: equations; `edits/an_upload_goes_on_at_its_own_count`, `edits/what_was_lent_is_let_go_with_its_operation`.
    ensures next { IfOk result (λ follows. then_some follows op.new ≡ next_in (run_in op.old run.old) op.old (said_of answer.now)) }
    ensures run { run_in op.new run.new ≡ run_in op.old run.old }
    ensures err { OnErr result (op.new ≡ op.old) }
    // Witness of follows: only the next operation takes memory: `finish` of `ftp_client_session`, and so `data_out` of `Near`, need it.
    ensures follows { OnErr result (IsTrue (is_some (next_in (run_in op.old run.old) op.old (said_of answer.now)))) }
{
    if run.left == 0 {
        return Ok(false);
    }
    if is_size(op) {
        after_size(run, op, answer, alloc)
    } else {
        after_try(run, op, answer, alloc)
    }
}

/// Whether an operation is SIZE. Every other one of a run is a try.
pub fn is_size<A: Allocator + Copy>(op: &Op<Text<A>>) -> bool
    ensures { result ≡ is_size op.now }
{
    matches!(op, Op::Size(_, _))
}

/// After SIZE: the rest, or all anew where there is no file.
fn after_size<A: Allocator + Copy>(
    run: &mut Run<A>,
    op: &mut Op<Text<A>>,
    answer: &Answer<A>,
    alloc: &A,
) -> Result<bool, AllocError>
    requires { is_size op.old ≡ true }
    ensures next { IfOk result (λ follows. then_some follows op.new ≡ after_size (upload_of_run op.old run.old) (said_of answer.now)) }
    ensures run { run_in op.new run.new ≡ run_in op.old run.old }
    ensures err { OnErr result (op.new ≡ op.old) }
    ensures follows { OnErr result (IsTrue (is_some (after_size (upload_of_run op.old run.old) (said_of answer.now)))) }
{
    match answer {
        Answer::Number(count) => put_behind(run, op, *count, alloc),
        Answer::Refused(code) => {
            if *code == UNAVAILABLE {
                put_whole(run, op, alloc)
            } else {
                Ok(false)
            }
        }
        _ => Ok(false),
    }
}

/// After a Put or a PutFrom: SIZE after a break, and the same again where nothing was opened.
fn after_try<A: Allocator + Copy>(
    run: &mut Run<A>,
    op: &mut Op<Text<A>>,
    answer: &Answer<A>,
    alloc: &A,
) -> Result<bool, AllocError>
    ensures next { IfOk result (λ follows. then_some follows op.new ≡ after_try (upload_of_run op.old run.old) op.old (said_of answer.now)) }
    ensures run { run_in op.new run.new ≡ run_in op.old run.old }
    ensures err { OnErr result (op.new ≡ op.old) }
    ensures follows { OnErr result (IsTrue (is_some (after_try (upload_of_run op.old run.old) op.old (said_of answer.now)))) }
{
    match answer {
        Answer::Broken { .. } => {
            let size = Op::Size(copied(&run.path, alloc)?, run.how);
            take_back(&mut run.octets, mem::replace(op, size));
            Ok(true)
        }
        Answer::Unopened => Ok(true),
        _ => Ok(false),
    }
}

/// The server has so many octets of the file: the rest, or all anew where they are more than there are.
fn put_behind<A: Allocator + Copy>(
    run: &mut Run<A>,
    op: &mut Op<Text<A>>,
    count: u64,
    alloc: &A,
) -> Result<bool, AllocError>
    requires { is_size op.old ≡ true }
    ensures next { IfOk result (λ follows. then_some follows op.new ≡ Some (try_behind (upload_of_run op.old run.old) count)) }
    ensures run { run_in op.new run.new ≡ run_in op.old run.old }
    ensures err { OnErr result (op.new ≡ op.old) }
{
    let octets = own(&run.octets);
    if count > octets.len() as u64 {
        return put_whole(run, op, alloc);
    }
    let (_, rest) = octets.split_at(count as usize);
    let path = copied(&run.path, alloc)?;
    let rest = Text::copy_of(*alloc, rest)?;
    *op = Op::PutFrom(path, count, rest, run.how);
    Ok(true)
}

/// All octets from the start, which are lent.
fn put_whole<A: Allocator + Copy>(
    run: &mut Run<A>,
    op: &mut Op<Text<A>>,
    alloc: &A,
) -> Result<bool, AllocError>
    requires { is_size op.old ≡ true }
    ensures next { IfOk result (λ follows. then_some follows op.new ≡ Some (whole_put (upload_of_run op.old run.old))) }
    ensures run { run_in op.new run.new ≡ run_in op.old run.old }
    ensures err { OnErr result (op.new ≡ op.old) }
{
    let path = copied(&run.path, alloc)?;
    let none = Text::from_vec(Vec::new(*alloc));
    let octets = run.octets.take().unwrap_or(none);
    *op = Op::Put(path, octets, run.how);
    Ok(true)
}

/// The octets that an operation has of its run are the run's again.
fn take_back<A: Allocator + Copy>(octets: &mut Option<Text<A>>, op: Op<Text<A>>)
    ensures { unwrap_or octets.new [] ≡ all_octets octets.old op }
{
    if octets.is_none() {
        *octets = op.into_put();
    }
}

/// The octets that a run has itself.
fn own<A: Allocator + Copy>(octets: &Option<Text<A>>) -> &[u8]
    ensures { result.now ≡ unwrap_or octets.now [] }
{
    match octets {
        Some(octets) => octets.as_slice(),
        None => &[],
    }
}

/// A copy of a text.
fn copied<A: Allocator + Copy>(text: &Text<A>, alloc: &A) -> Result<Text<A>, AllocError>
    ensures { IfOk result (λ copy. copy ≡ text.now) }
{
    Text::copy_of(*alloc, text.as_slice())
}

/// Whether the octets of a file are those of its transfer, and SIZE counts them: type I and file structure.
fn counts_as_file(settings: Representation) -> bool
    ensures { result ≡ counts_as_file settings }
{
    settings.kind == Kind::Image && settings.structure == Structure::File
}
