// Somebody who answers what a row says, and writes what was asked.
use crate::tries::TransferRow;
use ftp_client_stream::Carries;
use ftp_facts::{Moment, Text};
use ftp_operation::{Answer, How, Op};
use rows_base::{Paper, cut, found, number, split};
use std::alloc::Global;
use std::cell::Cell;
use std::io::ErrorKind;
use std::mem;
use tool_session::{ClientSession, DataEnding, FromStreamBody, Request, SessionFault, SessionTask};

/// How many reads or writes of a file are made at most.
const MOST_WRITES: u32 = 1_000;

/// What is answered.
#[derive(Clone, Copy)]
enum ScriptedAnswer {
    Done,
    /// The data connection broke.
    Broken,
    /// So many octets of a download, and then its end.
    Sent(u64),
    /// So many octets of a download, and then its data connection broke.
    Cut(u64),
    /// No data connection was opened.
    Unopened,
    /// Refused by a code, without a data connection.
    Refused(u16),
    /// Refused by a code, behind a data connection.
    Behind(u16),
    /// So many octets of a download, and that all is done, but no end of its data connection.
    Unended(u64),
    /// More octets of a download than the limit.
    Past,
    Size(u64),
    /// So many seconds behind the beginning of 1970.
    Stamp(u64),
    Strange,
    /// So many octets of a download, and then the end of its control connection.
    Gone(u64),
    Lost,
}

/// Answers one after another.
#[derive(Drop)]
struct ScriptedSession<'a> {
    alloc: Global,
    paper: &'a mut Paper,
    row: TransferRow<'a>,
    opened: u32,
    ending: DataEnding,
    came: Text<Global>,
}

impl<'a> ClientSession for ScriptedSession<'a> {
    fn answer(&mut self, request: Request) -> Answer<Global> {
        put(self.paper, &request);
        self.answered(&request)
    }

    fn answer_carried<T: FromStreamBody>(
        &mut self,
        request: Request,
        home: &Cell<Option<T>>,
    ) -> Answer<Global> {
        put(self.paper, &request);
        let mut carried = home.replace(None);
        if let (Request::Drawn(_, _), Some(carried)) = (&request, &mut carried) {
            put_given(self.alloc, self.paper, carried);
        }
        let mut answer = self.answered(&request);
        if let Some(carried) = &mut carried {
            hand_over(
                taken(self.alloc, &mut answer, &mut self.came).as_slice(),
                carried,
            );
        }
        home.set(carried);
        answer
    }

    fn came(&self) -> &[u8] {
        self.came.as_slice()
    }

    fn opened(&self) -> u32 {
        self.opened
    }

    fn ending(&self) -> DataEnding {
        self.ending
    }
}

impl<'a> ScriptedSession<'a> {
    /// What is answered to what was put.
    fn answered(&mut self, request: &Request) -> Answer<Global> {
        let told = self.next();
        if is_opened(told) {
            self.opened = self.opened.saturating_add(1);
        }
        self.ending = ending_of(told);
        self.came = came_of(self.alloc, told, start_of(request));
        answer_of(self.alloc, told, start_of(request))
    }

    /// What is answered next.
    fn next(&mut self) -> ScriptedAnswer {
        if self.row.told.is_empty() {
            self.row.told = self.row.again;
        }
        let (word, behind) = split(self.row.told);
        self.row.told = behind;
        told_by(word)
    }
}

/// What a word says: `size=10`. Any other word, and none, is that all is lost.
fn told_by(word: &[u8]) -> ScriptedAnswer {
    let (name, digits) = cut(word, b'=');
    let count = number(digits);
    let code = u16::try_from(count).unwrap_or(0);
    found(
        &[
            (b"done", ScriptedAnswer::Done),
            (b"broken", ScriptedAnswer::Broken),
            (b"sent", ScriptedAnswer::Sent(count)),
            (b"cut", ScriptedAnswer::Cut(count)),
            (b"unopened", ScriptedAnswer::Unopened),
            (b"refused", ScriptedAnswer::Refused(code)),
            (b"behind", ScriptedAnswer::Behind(code)),
            (b"unended", ScriptedAnswer::Unended(count)),
            (b"past", ScriptedAnswer::Past),
            (b"size", ScriptedAnswer::Size(count)),
            (b"stamp", ScriptedAnswer::Stamp(count)),
            (b"strange", ScriptedAnswer::Strange),
            (b"gone", ScriptedAnswer::Gone(count)),
        ],
        name,
        ScriptedAnswer::Lost,
    )
}

/// What is answered over a control connection, or over another one behind it, where all is lost.
pub(crate) fn played<T>(
    alloc: Global,
    paper: &mut Paper,
    row: TransferRow<'_>,
    task: &mut T,
) -> Result<Answer<Global>, SessionFault>
where
    T: SessionTask<Result<Answer<Global>, SessionFault>>,
{
    let mut slot = ScriptedSession {
        alloc,
        paper,
        row,
        opened: 0,
        ending: DataEnding::Answered,
        came: octets(alloc, 0, 0),
    };
    let answered = task.play(&mut slot);
    if !matches!(&answered, Ok(Answer::Lost)) {
        return answered;
    }
    drop(answered);
    task.play(&mut slot)
}

/// Whether a data connection was opened for it.
fn is_opened(told: ScriptedAnswer) -> bool {
    matches!(
        told,
        ScriptedAnswer::Done
            | ScriptedAnswer::Broken
            | ScriptedAnswer::Sent(_)
            | ScriptedAnswer::Cut(_)
            | ScriptedAnswer::Behind(_)
            | ScriptedAnswer::Unended(_)
            | ScriptedAnswer::Past
            | ScriptedAnswer::Gone(_)
    )
}

/// How its data connection ended.
fn ending_of(told: ScriptedAnswer) -> DataEnding {
    match told {
        ScriptedAnswer::Unended(_) => DataEnding::Unended,
        ScriptedAnswer::Past => DataEnding::PastLimit,
        _ => DataEnding::Answered,
    }
}

/// From which octet of the file on a download is asked for.
fn start_of(request: &Request) -> u64 {
    match request {
        Request::Download(Some(Op::GetFrom(_, from, _)), _) => *from,
        _ => 0,
    }
}

fn answer_of(alloc: Global, told: ScriptedAnswer, from: u64) -> Answer<Global> {
    match told {
        ScriptedAnswer::Done => Answer::Done,
        ScriptedAnswer::Broken => broken(alloc, from, 0),
        ScriptedAnswer::Sent(count) => Answer::Octets(octets(alloc, from, count)),
        ScriptedAnswer::Cut(count) | ScriptedAnswer::Unended(count) => broken(alloc, from, count),
        ScriptedAnswer::Past => broken(alloc, from, 0),
        ScriptedAnswer::Unopened => Answer::Unopened,
        ScriptedAnswer::Refused(code) | ScriptedAnswer::Behind(code) => Answer::Refused(code),
        ScriptedAnswer::Size(count) => Answer::Number(count),
        ScriptedAnswer::Stamp(seconds) => stamp(seconds),
        ScriptedAnswer::Strange => Answer::Strange,
        ScriptedAnswer::Gone(_) | ScriptedAnswer::Lost => Answer::Lost,
    }
}

/// What came of a download before its control connection ended.
fn came_of(alloc: Global, told: ScriptedAnswer, from: u64) -> Text<Global> {
    match told {
        ScriptedAnswer::Gone(count) => octets(alloc, from, count),
        _ => octets(alloc, from, 0),
    }
}

fn stamp(seconds: u64) -> Answer<Global> {
    match Moment::new(seconds) {
        Some(moment) => Answer::Stamp(moment),
        None => Answer::Strange,
    }
}

fn broken(alloc: Global, from: u64, count: u64) -> Answer<Global> {
    Answer::Broken {
        got: octets(alloc, from, count),
        mark: None,
    }
}

/// So many octets of a file from one of them on: the last digits of their places.
fn octets(alloc: Global, from: u64, count: u64) -> Text<Global> {
    let mut octets = Vec::new(alloc);
    for place in 0..count {
        let digit = from.saturating_add(place) % 10;
        if octets.push(b'0' + digit as u8).is_err() {
            break;
        }
    }
    Text::from_vec(octets)
}

/// Puts what is asked.
fn put(paper: &mut Paper, request: &Request) {
    match request {
        Request::One(Some(Op::Put(_, octets, how))) => {
            put_octets(paper, *how, 0, octets.as_slice())
        }
        Request::One(Some(Op::PutFrom(_, from, octets, how))) => {
            put_octets(paper, *how, *from, octets.as_slice())
        }
        Request::Drawn(Some(Op::Put(_, _, how)), _) => put_octets(paper, *how, 0, b""),
        Request::Drawn(Some(Op::PutFrom(_, from, _, how)), _) => put_octets(
            paper, *how, *from, b"",
        ),
        Request::One(Some(Op::Size(_, _))) => paper.put(b" size"),
        Request::One(Some(Op::Modified(_))) => paper.put(b" moment"),
        Request::Download(Some(Op::Get(_, how) | Op::GetFrom(_, _, how)), _) => {
            paper.put(b" from");
            put_place(paper, *how, start_of(request));
        }
        _ => paper.put(b" another"),
    }
}

/// Puts a place in a file, after an e where the data connection is asked for by EPSV or EPRT.
fn put_place(paper: &mut Paper, how: How, from: u64) {
    paper.put(b" ");
    if how.extended {
        paper.put(b"e");
    }
    paper.number(from);
}

fn put_octets(paper: &mut Paper, how: How, from: u64, octets: &[u8]) {
    put_place(paper, how, from);
    paper.put(b":");
    paper.put(octets);
}

/// Puts the octets that go in the place of some.
fn put_given<T: Carries>(alloc: Global, paper: &mut Paper, carried: &mut T) {
    let mut link: Vec<u8, Global> = Vec::new(alloc);
    for _ in 0..MOST_WRITES {
        match carried.give(&mut link, b"-") {
            Err(error) if error.kind() == ErrorKind::Interrupted => {}
            _ => break,
        }
    }
    paper.put(link.as_slice());
}

/// The octets of an answer, or those that came before its control connection ended, which neither has then.
fn taken(alloc: Global, answer: &mut Answer<Global>, came: &mut Text<Global>) -> Text<Global> {
    let none = Text::from_vec(Vec::new(alloc));
    match answer {
        Answer::Octets(octets) => mem::replace(octets, none),
        Answer::Broken { got, mark: _ } => mem::replace(got, none),
        _ => mem::replace(came, none),
    }
}

/// Hands octets that come to what carries them.
fn hand_over<T: Carries>(octets: &[u8], carried: &mut T) {
    let mut link = octets;
    let mut room = [0; 4];
    for _ in 0..MOST_WRITES {
        match carried.hear(&mut link, &mut room) {
            Err(error) if error.kind() == ErrorKind::Interrupted => {}
            _ => break,
        }
    }
}
