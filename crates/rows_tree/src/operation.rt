// Operations of a user, run directly on a tree.
use crate::accounts::{WHOLE, list_of, login};
use crate::octets::octets_of;
use crate::request::operation;
use crate::said::show_answer;
use crate::told::TreeReport;
use crate::verb::verb_of;
use crate::words::split;
use ftp_direct::direct;
use ftp_facts::{Moment, Text};
use ftp_operation::{Accounts, Answer, Op};
use ftp_tree::Tree;
use rows_base::{Paper, cut};
use std::alloc::{AllocError, Allocator, Global};

/// A list of operations, each with its moment.
type List<A> = Vec<(Op<Text<A>>, Moment), A>;

fn operation_of<A: Allocator + Copy>(ample: A, alloc: Global, line: &[u8]) -> Op<Text<A>> {
    let octets = octets_of(alloc, line);
    let (word, words) = split(octets.as_slice());
    operation(ample, verb_of(word), words)
}

/// The operations of some lines, the first at second 1,000 and each later one a second on.
fn operations<A: Allocator + Copy>(ample: A, alloc: Global, lines: &[u8]) -> List<A> {
    let mut list = Vec::new(ample);
    let mut rest = lines;
    for seconds in 1_000..100_000u64 {
        if rest.is_empty() {
            break;
        }
        let (line, behind) = cut(rest, b'\n');
        let _ = list.push((operation_of(ample, alloc, line), Moment { seconds }));
        rest = behind;
    }
    list
}

/// What `direct` makes of operations. A user name, a password, and the accounts, if they are others than usual.
fn run<A: Allocator + Copy, T: Tree<A>>(
    ample: A,
    heap: A,
    tree: &mut T,
    words: &[u8],
    list: &[(Op<Text<A>>, Moment)],
) -> Result<Vec<Answer<A>, A>, AllocError> {
    let (_, words) = split(words);
    let (user, words) = split(words);
    let (pass, words) = split(words);
    match &Accounts::new(list_of(ample, if words.is_empty() { WHOLE } else { words })) {
        Ok(accounts) => run_as(ample, heap, tree, accounts, (user, pass), list),
        Err(_) => Err(AllocError),
    }
}

/// The same of a user of these accounts.
fn run_as<A: Allocator + Copy, T: Tree<A>>(
    ample: A,
    heap: A,
    tree: &mut T,
    accounts: &Accounts<A>,
    (user, pass): (&[u8], &[u8]),
    list: &[(Op<Text<A>>, Moment)],
) -> Result<Vec<Answer<A>, A>, AllocError> {
    match &login(ample, user, pass) {
        Some(login) => direct(&heap, tree, accounts, login, list),
        None => Err(AllocError),
    }
}

/// The same of lines.
fn run_lines<A: Allocator + Copy, T: Tree<A>>(
    ample: A,
    heap: A,
    alloc: Global,
    tree: &mut T,
    head: &[u8],
    lines: &[u8],
) -> Result<Vec<Answer<A>, A>, AllocError> {
    let words = octets_of(alloc, head);
    let list = operations(ample, alloc, lines);
    run(ample, heap, tree, words.as_slice(), list.as_slice())
}

/// Plays a line that says who logs in, and the operations behind it; writes each with its answer.
pub fn play_user<A: Allocator + Copy, T: Tree<A>>(
    ample: A,
    heap: A,
    alloc: Global,
    tree: &mut T,
    group: &[u8],
    told: &mut TreeReport,
) {
    let (head, lines) = cut(group, b'\n');
    told.paper.line(head);
    match run_lines(ample, heap, alloc, tree, head, lines) {
        Ok(answers) => show_answers(alloc, answers.as_slice(), lines, &mut told.paper),
        Err(_) => {
            told.count(false);
            told.paper.put(b"given up\n");
        }
    }
}

fn show_answers<A: Allocator + Copy>(
    alloc: Global,
    answers: &[Answer<A>],
    lines: &[u8],
    paper: &mut Paper,
) {
    let mut rest = lines;
    for answer in answers {
        let (line, behind) = cut(rest, b'\n');
        paper.put(line);
        paper.put(b" = ");
        show_answer(alloc, answer, paper);
        paper.put(b"\n");
        rest = behind;
    }
    if !rest.is_empty() {
        paper.put(b"! not all are answered\n");
    }
}
