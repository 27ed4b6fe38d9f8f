// Orders in a world beside the same orders run directly on an equal tree.
use crate::worlds::desk::{PlayMode, RowOutput};
use crate::worlds::drawn::drawn_orders;
use crate::worlds::making::{login_line, play};
use crate::worlds::shown::put_reports;
use crate::worlds::words::{WorldWord, word_of};
use ftp_direct::direct;
use ftp_facts::{Moment, Text};
use ftp_operation::{Accounts, Login, Op};
use ftp_tree_memory::{HeldTree, MemTree};
use rows_base::{Paper, Refusing, cut, first_other, number};
use rows_tree::show_tree;
use std::alloc::{AllocError, Allocator, Global};
use tool_accounts::two_accounts;
use tool_script::{Order, login_of, moment_of, order_of};

/// How lines of reports begin.
const REPORTS: &[&'static [u8]] = &[
    b"= done",
    b"= path ",
    b"= octets ",
    b"= number ",
    b"= moment ",
    b"= entry ",
    b"= entries ",
    b"= names ",
    b"= refused ",
    b"= refused 451",
    b"= bad",
    b"= broken ",
    b"= unopened",
    b"= foreign",
    b"= lost",
    b"= strange",
    b"= memory",
];

/// Operations and their moments.
type Dues<A> = Vec<(Op<Text<A>>, Moment)>;

/// Plays so many drawn orders, each until all is at rest. Writes how often each kind of report came, and what stands in the tree; or where the same
/// orders run directly answer otherwise.
pub fn play_drawn(alloc: Global, row: &[u8], count: &[u8], paper: &mut Paper) {
    paper.line(row);
    match drawn_orders(alloc, number(count)) {
        Ok(orders) => play_beside(alloc, orders.as_slice(), paper),
        Err(_) => paper.fill(),
    }
}

fn play_beside(alloc: Global, orders: &[u8], paper: &mut Paper) {
    let mut desk = RowOutput::new(alloc, PlayMode::Quiet);
    play(alloc, orders, 0, &mut desk);
    let came = desk.paper.text();
    match run_directly(alloc, &Refusing::new(alloc, 0), orders) {
        Ok(wanted) => compare(came, wanted.text(), paper),
        Err(_) => paper.fill(),
    }
    for word in REPORTS {
        tell_count(word, came, paper);
    }
    tell_tree(came, paper);
}

fn compare(came: &[u8], wanted: &[u8], paper: &mut Paper) {
    if came == wanted {
        paper.line(b"as directly");
    } else {
        paper.line(b"! not as directly:");
        paper.line(first_other(came, wanted).unwrap_or(b""));
    }
}

/// How many lines begin so, where any does.
fn tell_count(word: &[u8], text: &[u8], paper: &mut Paper) {
    let mut count = 0u64;
    let mut rest = text;
    for _ in 0..text.len() {
        let (line, behind) = cut(rest, b'\n');
        count = count.saturating_add(u64::from(line.starts_with(word)));
        rest = behind;
    }
    if count > 0 {
        paper.number(count);
        paper.put(b" times ");
        paper.line(word);
    }
}

/// What stands behind the last report: the tree begins with its root.
fn tell_tree(text: &[u8], paper: &mut Paper) {
    for at in 0..text.len() {
        let (_, rest) = text.split_at(at);
        if let Some(tree) = rest.strip_prefix(b"\n  /\n") {
            paper.line(b"  /");
            paper.put(tree);
            return;
        }
    }
}

/// What orders answer that are run directly on a new tree, and the tree behind them.
fn run_directly<A: Allocator + Copy>(
    alloc: Global,
    heap: A,
    orders: &[u8],
) -> Result<Paper, AllocError> {
    let accounts = two_accounts(heap)?;
    let Ok(login) = login_of(heap, login_line(orders)) else {
        return Err(AllocError);
    };
    let dues = dues_of(alloc, heap, orders)?;
    answer(
        alloc,
        heap,
        MemTree::new(heap),
        &accounts,
        &login,
        dues.as_slice(),
    )
}

fn answer<A: Allocator + Copy, T: HeldTree<A>>(
    alloc: Global,
    heap: A,
    mut tree: T,
    accounts: &Accounts<A>,
    login: &Login<A>,
    dues: &[(Op<Text<A>>, Moment)],
) -> Result<Paper, AllocError> {
    let answers = direct(&heap, &mut tree, accounts, login, dues)?;
    let mut paper = Paper::new(alloc);
    put_reports(alloc, answers.as_slice(), 0, &mut paper);
    show_tree(alloc, &tree, &mut paper);
    Ok(paper)
}

/// The operations of lines, each a second behind the one before.
fn dues_of<A: Allocator + Copy>(
    alloc: Global,
    heap: A,
    lines: &[u8],
) -> Result<Dues<A>, AllocError> {
    let mut dues = Vec::new(alloc);
    let mut rest = lines;
    for _ in 0..lines.len() {
        let (line, behind) = cut(rest, b'\n');
        if let (WorldWord::Begin, order) = word_of(line) {
            put_due(heap, order, &mut dues)?;
        }
        rest = behind;
    }
    Ok(dues)
}

fn put_due<A: Allocator + Copy>(
    heap: A,
    line: &[u8],
    dues: &mut Dues<A>,
) -> Result<(), AllocError> {
    let Some(moment) = moment_of(dues.len() as u64) else {
        return Err(AllocError);
    };
    match order_of(heap, line) {
        Ok(order) => put_op(order, moment, dues),
        Err(_) => Err(AllocError),
    }
}

fn put_op<A: Allocator + Copy>(
    order: Order<Text<A>>,
    moment: Moment,
    dues: &mut Dues<A>,
) -> Result<(), AllocError> {
    match order.into_parts() {
        Ok(op) => match dues.push((op, moment)) {
            Ok(_) => Ok(()),
            Err(_) => Err(AllocError),
        },
        Err(_) => Err(AllocError),
    }
}
