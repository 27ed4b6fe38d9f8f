// A line: a login or an order.
ghost use Rattle.std.specs.Prelude.{◌≡◌, map, option_map, IfOk};
ghost use Rattle.std.specs.List.{slice_split};
ghost use Rattle.tool_script.specs.Line.{Reads, alone_op, giving_op, is_space, login_in, login_value, login_with, order_in, order_value, order_with, part_op, path_op, put_from_in, taking_in, taking_op, text_by, text_in, upload_in};
ghost use Rattle.tool_script.specs.declared.order.Order.TheVariants.{Once};

use crate::cut::pieces_at;
use crate::fault::LineFault;
use crate::order::Order;
use crate::parts::{giving, giving_from, none, pair, path, taking, taking_from};
use crate::verb::{Alone, Giving, OnPath, PartVerb, ScriptVerb, Taking, list_verb_of, verb_of};
use ftp_facts::Text;
use ftp_operation::{How, ListVerb, Login, Op};
use std::alloc::{AllocError, Allocator};

/// What a line asks, given without its end.
#[tactic(auto, unfolding(crate::specs::Line::order_value))]
pub fn order_of<A: Allocator + Copy>(alloc: A, line: &[u8]) -> Result<Order<Text<A>>, LineFault>
    // Witness: an equation, where memory is not refused: a line says one order, or none.
    ensures { Reads (λ order. order) result (order_value line.now) }
{
    match fields_of(alloc, line) {
        Ok(fields) => order_in(alloc, fields.as_slice()),
        Err(AllocError) => Err(LineFault::Memory),
    }
}

fn order_in<A: Allocator + Copy>(alloc: A, fields: &[&[u8]]) -> Result<Order<Text<A>>, LineFault>
    ensures { Reads (λ order. order) result (order_in (map (λ field. field.now) fields.now)) }
{
    match fields {
        [word, fields @ ..] => match verb_of(word) {
            Some(verb) => order_with(alloc, verb, fields),
            None => Err(LineFault::Unfit),
        },
        [] => Err(LineFault::Unfit),
    }
}

/// What is asked by a verb and the fields behind it.
fn order_with<A: Allocator + Copy>(
    alloc: A,
    verb: ScriptVerb,
    fields: &[&[u8]],
) -> Result<Order<Text<A>>, LineFault>
    ensures { Reads (λ order. order) result (order_with verb (map (λ field. field.now) fields.now)) }
{
    match verb {
        ScriptVerb::Alone(verb) => match none(fields) {
            Ok(()) => Ok(Order::Once(alone_op(verb))),
            Err(fault) => Err(fault),
        },
        ScriptVerb::OnPath(verb) => match path(alloc, fields) {
            Ok(path) => Ok(Order::Once(path_op(verb, path))),
            Err(fault) => Err(fault),
        },
        ScriptVerb::Rename => match pair(alloc, fields) {
            Ok((from, to)) => Ok(Order::Once(Op::Rename(from, to))),
            Err(fault) => Err(fault),
        },
        ScriptVerb::Taking(verb) => match taking(alloc, fields) {
            Ok((how, path)) => Ok(Order::Once(taking_op(verb, how, path))),
            Err(fault) => Err(fault),
        },
        ScriptVerb::Part(verb) => match taking_from(alloc, fields) {
            Ok((how, path, number)) => Ok(Order::Once(part_op(verb, how, path, number))),
            Err(fault) => Err(fault),
        },
        ScriptVerb::Giving(verb) => match giving(alloc, fields) {
            Ok((how, path, octets)) => Ok(Order::Once(giving_op(verb, how, path, octets))),
            Err(fault) => Err(fault),
        },
        ScriptVerb::GivingFrom => put_from_in(alloc, fields),
        ScriptVerb::Upload => upload_in(alloc, fields),
        ScriptVerb::Text => text_in(alloc, fields),
    }
}

/// The upload from an offset on of the fields behind its verb.
fn put_from_in<A: Allocator + Copy>(alloc: A, fields: &[&[u8]]) -> Result<Order<Text<A>>, LineFault>
    ensures { Reads (λ order. order) result (put_from_in (map (λ field. field.now) fields.now)) }
{
    match giving_from(alloc, fields) {
        Ok((how, path, number, octets)) => Ok(Order::Once(Op::PutFrom(path, number, octets, how))),
        Err(fault) => Err(fault),
    }
}

/// The upload over breaks of the fields behind its verb.
fn upload_in<A: Allocator + Copy>(alloc: A, fields: &[&[u8]]) -> Result<Order<Text<A>>, LineFault>
    ensures { Reads (λ order. order) result (upload_in (map (λ field. field.now) fields.now)) }
{
    match giving(alloc, fields) {
        Ok((how, path, octets)) => Ok(Order::Tries { path, octets, how }),
        Err(fault) => Err(fault),
    }
}

/// The listing as text of the fields behind its verb.
fn text_in<A: Allocator + Copy>(alloc: A, fields: &[&[u8]]) -> Result<Order<Text<A>>, LineFault>
    ensures { Reads (λ order. order) result (text_in (map (λ field. field.now) fields.now)) }
{
    match fields {
        [word, fields @ ..] => match list_verb_of(word) {
            Some(verb) => text_by(alloc, verb, fields),
            None => Err(LineFault::Unfit),
        },
        [] => Err(LineFault::Unfit),
    }
}

/// The listing as text by a command, of the fields behind that.
fn text_by<A: Allocator + Copy>(
    alloc: A,
    verb: ListVerb,
    fields: &[&[u8]],
) -> Result<Order<Text<A>>, LineFault>
    ensures { Reads (λ order. order) result (text_by verb (map (λ field. field.now) fields.now)) }
{
    match taking(alloc, fields) {
        Ok((how, path)) => Ok(Order::Once(Op::Text(verb, path, how))),
        Err(fault) => Err(fault),
    }
}

fn alone_op<A: Allocator + Copy>(verb: Alone) -> Op<Text<A>>
    ensures { result ≡ alone_op verb }
{
    match verb {
        Alone::Where => Op::Where,
        Alone::Up => Op::Up,
    }
}

fn path_op<A: Allocator + Copy>(verb: OnPath, path: Text<A>) -> Op<Text<A>>
    ensures { result ≡ path_op verb path }
{
    match verb {
        OnPath::ChangeDir => Op::ChangeDir(path),
        OnPath::MakeDir => Op::MakeDir(path),
        OnPath::RemoveDir => Op::RemoveDir(path),
        OnPath::Delete => Op::Delete(path),
        OnPath::Modified => Op::Modified(path),
        OnPath::Facts => Op::Facts(path),
    }
}

fn taking_op<A: Allocator + Copy>(verb: Taking, how: How, path: Text<A>) -> Op<Text<A>>
    ensures { result ≡ taking_op verb how path }
{
    match verb {
        Taking::Get => Op::Get(path, how),
        Taking::Size => Op::Size(path, how),
        Taking::Entries => Op::List(path, how),
        Taking::Names => Op::Names(path, how),
    }
}

fn part_op<A: Allocator + Copy>(verb: PartVerb, how: How, path: Text<A>, number: u64) -> Op<Text<A>>
    ensures { result ≡ part_op verb how path number }
{
    match verb {
        PartVerb::GetFrom => Op::GetFrom(path, number, how),
        PartVerb::Peek => Op::Peek(path, number, how),
    }
}

fn giving_op<A: Allocator + Copy>(
    verb: Giving,
    how: How,
    path: Text<A>,
    octets: Text<A>,
) -> Op<Text<A>>
    ensures { result ≡ giving_op verb how path octets }
{
    match verb {
        Giving::Put => Op::Put(path, octets, how),
        Giving::Append => Op::Append(path, octets, how),
    }
}

/// The login that a line says, given without its end.
#[tactic(auto, unfolding(crate::specs::Line::login_value))]
pub fn login_of<A: Allocator + Copy>(alloc: A, line: &[u8]) -> Result<Login<A>, LineFault>
    // Witness: as `order_of`.
    ensures { Reads (λ login. (login.user, login.pass)) result (login_value line.now) }
{
    match fields_of(alloc, line) {
        Ok(fields) => login_in(alloc, fields.as_slice()),
        Err(AllocError) => Err(LineFault::Memory),
    }
}

fn login_in<A: Allocator + Copy>(alloc: A, fields: &[&[u8]]) -> Result<Login<A>, LineFault>
    ensures { Reads (λ login. (login.user, login.pass)) result (login_in (map (λ field. field.now) fields.now)) }
{
    let [word, fields @ ..] = fields else {
        return Err(LineFault::Unfit);
    };
    if *word != b"login".as_slice() {
        return Err(LineFault::Unfit);
    }
    match pair(alloc, fields) {
        Ok((user, pass)) => login_with(user, pass),
        Err(fault) => Err(fault),
    }
}

fn login_with<A: Allocator + Copy>(user: Text<A>, pass: Text<A>) -> Result<Login<A>, LineFault>
    ensures { Reads (λ login. (login.user, login.pass)) result (login_with (user, pass)) }
{
    match Login::new(user, pass) {
        Some(login) => Ok(login),
        None => Err(LineFault::Unfit),
    }
}

/// The fields of a line: what stands between its spaces.
fn fields_of<A: Allocator + Copy>(alloc: A, line: &[u8]) -> Result<Vec<&[u8], A>, AllocError>
    ensures { IfOk result (λ fields. map (λ field. field.now) fields.items ≡ slice_split is_space line.now) }
{
    pieces_at(alloc, b' ', line)
}
