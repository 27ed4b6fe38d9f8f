// A whole script: a login, and orders after it.
ghost use Rattle.std.specs.Prelude.{◌≡◌, ◌==◌, ◌++◌, ◌∷◌, [], map, option_map, IfOk, Some};
ghost use Rattle.std.specs.List.{slice_split};
ghost use Rattle.ftp_facts.specs.Listing.{line_feed};
ghost use Rattle.tool_script.specs.Line.{Reads, order_value};
ghost use Rattle.tool_script.specs.Script.{ReadsAll, at_line, orders_behind, orders_value, script_between, script_from, script_in, script_value};

use crate::cut::pieces_at;
use crate::fault::LineFault;
use crate::line::{login_of, order_of};
use crate::order::Order;
use ftp_facts::Text;
use ftp_operation::Login;
use std::alloc::{AllocError, Allocator};

/// What a script asks: who logs in, and the orders, one after another.
#[derive(Drop)]
pub struct Script<A: Allocator + Copy> {
    pub login: Login<A>,
    pub orders: Vec<Order<Text<A>>, A>,
}

/// Why a text is no script.
#[derive(Clone, Copy)]
pub enum ScriptFault {
    /// The number of the first line that fits no form, counted from 1.
    Line(usize),
    /// The allocator refused a growth.
    Memory,
}

/// What a script says. Each line is ended by LF: a last one that is not is refused. A script without a line lacks its first.
pub fn script_of<A: Allocator + Copy>(alloc: A, text: &[u8]) -> Result<Script<A>, ScriptFault>
    // Witness: as `order_of`: a script says one login and one list of orders, or is refused at one line.
    ensures { ReadsAll (λ script. ((script.login.user, script.login.pass), script.orders.items)) result (script_value text.now) }
{
    match pieces_of(alloc, text) {
        Ok(pieces) => script_between(alloc, pieces.as_slice()),
        Err(AllocError) => Err(ScriptFault::Memory),
    }
}

/// What stands between the ends of lines.
fn pieces_of<A: Allocator + Copy>(alloc: A, text: &[u8]) -> Result<Vec<&[u8], A>, AllocError>
    ensures { IfOk result (λ pieces. map (λ piece. piece.now) pieces.items ≡ slice_split (λ octet. octet == line_feed) text.now) }
{
    pieces_at(alloc, b'\n', text)
}

/// The script of what stands before, between and after ends of lines: nothing may stand after the last, since that is a line without its end.
fn script_between<A: Allocator + Copy>(alloc: A, pieces: &[&[u8]]) -> Result<Script<A>, ScriptFault>
    ensures { ReadsAll (λ script. ((script.login.user, script.login.pass), script.orders.items)) result (script_between (map (λ piece. piece.now) pieces.now)) }
{
    let Some((rest, lines)) = pieces.split_last() else {
        return Err(ScriptFault::Line(1));
    };
    let script = script_in(alloc, lines)?;
    if rest.is_empty() {
        Ok(script)
    } else {
        Err(ScriptFault::Line(pieces.len()))
    }
}

/// The script of lines.
fn script_in<A: Allocator + Copy>(alloc: A, lines: &[&[u8]]) -> Result<Script<A>, ScriptFault>
    ensures { ReadsAll (λ script. ((script.login.user, script.login.pass), script.orders.items)) result (script_in (map (λ line. line.now) lines.now)) }
{
    match lines {
        [first, lines @ ..] => match login_of(alloc, first) {
            Ok(login) => with_orders(alloc, login, lines),
            Err(fault) => Err(at_line(1, fault)),
        },
        [] => Err(ScriptFault::Line(1)),
    }
}

/// The login, and the orders of the lines behind it, the first of which is the second line.
fn with_orders<A: Allocator + Copy>(
    alloc: A,
    login: Login<A>,
    lines: &[&[u8]],
) -> Result<Script<A>, ScriptFault>
    ensures { ReadsAll (λ script. ((script.login.user, script.login.pass), script.orders.items)) result
        (script_from (Some (login.user, login.pass)) (map (λ line. line.now) lines.now)) }
{
    match orders_of(alloc, lines) {
        Ok(orders) => Ok(Script { login, orders }),
        Err(fault) => Err(fault),
    }
}

/// The orders of lines, the first of which is the second line of its script.
#[tactic(auto, using(crate::proofs::ScriptLemmas::none_behind))]
fn orders_of<A: Allocator + Copy>(
    alloc: A,
    lines: &[&[u8]],
) -> Result<Vec<Order<Text<A>>, A>, ScriptFault>
    ensures { ReadsAll (λ orders. orders.items) result (orders_value 2 (map (λ line. line.now) lines.now)) }
{
    let mut orders = Vec::new(alloc);
    match put_orders(alloc, lines, &mut orders) {
        Ok(()) => Ok(orders),
        Err(fault) => Err(fault),
    }
}

/// Appends the orders of lines, the first of which is the second line of its script.
fn put_orders<A: Allocator + Copy>(
    alloc: A,
    lines: &[&[u8]],
    orders: &mut Vec<Order<Text<A>>, A>,
) -> Result<(), ScriptFault>
    ensures { ReadsAll (λ _. orders.new.items) result (orders_behind orders.old.items (orders_value 2 (map (λ line. line.now) lines.now))) }
{
    let mut number = 2;
    for line in lines {
        match put_order(alloc, line, orders) {
            Ok(()) => number += 1,
            Err(fault) => return Err(at_line(number, fault)),
        }
    }
    Ok(())
}

/// Appends the order of a line.
fn put_order<A: Allocator + Copy>(
    alloc: A,
    line: &[u8],
    orders: &mut Vec<Order<Text<A>>, A>,
) -> Result<(), LineFault>
    ensures { Reads (λ _. orders.new.items) result (option_map (λ order. orders.old.items ++ order ∷ []) (order_value line.now)) }
{
    match order_of(alloc, line) {
        Ok(order) => keep(order, orders),
        Err(fault) => Err(fault),
    }
}

/// Keeps an order behind others.
fn keep<A: Allocator + Copy>(
    order: Order<Text<A>>,
    orders: &mut Vec<Order<Text<A>>, A>,
) -> Result<(), LineFault>
    ensures { Reads (λ _. orders.new.items) result (Some (orders.old.items ++ order ∷ [])) }
{
    match orders.push(order) {
        Ok(_) => Ok(()),
        Err(_) => Err(LineFault::Memory),
    }
}

/// Why a script is refused, of why the line with this number is.
fn at_line(number: usize, fault: LineFault) -> ScriptFault
    ensures { result ≡ at_line number fault }
{
    match fault {
        LineFault::Unfit => ScriptFault::Line(number),
        LineFault::Memory => ScriptFault::Memory,
    }
}
