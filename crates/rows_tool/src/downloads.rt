// What a download of the octets 0123456789 asks of a server that answers so, and how it stands then.
use crate::slot::played;
use crate::tries::TransferRow;
use ftp_facts::Moment;
use ftp_operation::Answer;
use rows_base::Paper;
use std::alloc::Global;
use std::io;
use std::io::{Error, ErrorKind, Write};
use tool_files::{LimitedContent, LocalFiles, OpenPart, read_from};
use tool_resume::{Arrival, Downloading, KnownMoment};
use tool_session::{Openings, SessionFault};

/// The most octets that the file may have.
const LIMIT: u64 = 100;

/// The file of this end.
const FILE: &str = "came";

/// How many octets the file had.
const TOTAL: u64 = 10;

/// When the server was asked for a listing, in seconds from the beginning of 1970.
const LISTED: u64 = 1_000;

/// What is known of the file before.
#[derive(Clone, Copy)]
pub(crate) enum KnownBefore {
    /// Nothing, and its moment is not asked for.
    Nothing,
    /// Nothing, and its moment is asked for.
    Untold,
    /// A part of these octets, which may be its first ones, of ten, and the fifth second of 1970.
    Kept(&'static [u8]),
    /// It was listed with ten octets and the fifth second of 1970.
    Listed,
}

fn stamp_of(known: KnownBefore) -> KnownMoment {
    match known {
        KnownBefore::Nothing | KnownBefore::Listed => KnownMoment::Unasked,
        KnownBefore::Untold | KnownBefore::Kept(_) => KnownMoment::Untold,
    }
}

/// Tells a download what is known, and the part to which its octets go.
fn tell(
    downloading: &mut Downloading<'_, HostRuntime>,
    known: KnownBefore,
    part: OpenPart,
) -> io::Result<()> {
    match (known, Moment::new(5)) {
        (KnownBefore::Kept(octets), Some(moment)) => {
            let mut writer = part.writer();
            writer.write_all(octets)?;
            downloading.go_on_in(part, octets.len() as u64, TOTAL, Some(moment))?;
        }
        (KnownBefore::Listed, Some(moment)) => {
            downloading.pour_into(part);
            downloading.expect(TOTAL, moment, LISTED);
        }
        _ => downloading.pour_into(part),
    }
    Ok(())
}

/// Puts what a download asks, and how it stands.
pub(crate) fn put(
    rt: &HostRuntime,
    paper: &mut Paper,
    row: TransferRow<'_>,
    known: KnownBefore,
) -> io::Result<()> {
    let openings = Openings::new(row.opening);
    let mut downloading = Downloading::new(rt, rt.alloc(), "a", row.how, &openings)?;
    downloading.put_terms(LIMIT, stamp_of(known));
    let Some(part) = rt.begin_part(FILE, false, &[])? else {
        return Err(Error::from(ErrorKind::InvalidInput));
    };
    tell(&mut downloading, known, part)?;
    let answer = played(rt.alloc(), paper, row, &mut downloading);
    put_end(paper, &downloading, &answer);
    put_part(rt, paper, &downloading)
}

/// Puts how a download stands that was answered so.
fn put_end(
    paper: &mut Paper,
    downloading: &Downloading<'_, HostRuntime>,
    answer: &Result<Answer<Global>, SessionFault>,
) {
    paper.put(b"; ");
    match answer {
        Ok(Answer::Done) => put_arrival(paper, downloading.arrived()),
        Ok(Answer::Refused(_)) => paper.put(b"refused"),
        Ok(Answer::Broken { got: _, mark: _ }) => paper.put(b"broken"),
        Ok(Answer::Lost) => paper.put(b"lost"),
        _ => paper.put(b"another"),
    }
    paper.put(b" ");
}

/// Puts what the part of a download has, and removes it.
fn put_part(
    rt: &HostRuntime,
    paper: &mut Paper,
    downloading: &Downloading<'_, HostRuntime>,
) -> io::Result<()> {
    if let Some(part) = downloading.came().part() {
        let name = rt.name_of_part(FILE, part)?;
        if let LimitedContent::Content(content) = read_from(rt, name.as_str(), 0, LIMIT)? {
            paper.put(content.octets.as_slice());
        }
        rt.discard_part(FILE, part)?;
    }
    paper.line(b"");
    Ok(())
}

fn put_arrival(paper: &mut Paper, arrival: Arrival) {
    match arrival {
        Arrival::Whole => paper.put(b"whole"),
        Arrival::Unknown => paper.put(b"unknown"),
        Arrival::Wrong(_) => paper.put(b"wrong"),
        Arrival::TooLarge(_) => paper.put(b"too large"),
        Arrival::Past => paper.put(b"past"),
        Arrival::Changed => paper.put(b"changed"),
    }
}
