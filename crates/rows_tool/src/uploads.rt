// What an upload of the file `ten` asks of a server that answers so, and the status.
use crate::slot::played;
use crate::tries::TransferRow;
use ftp_operation::Answer;
use rows_base::Paper;
use std::alloc::Global;
use std::io;
use std::io::{Error, ErrorKind};
use tool_files::LocalFiles;
use tool_resume::{UploadSource, Uploading};
use tool_session::{LastReply, Openings, SessionFault};

/// A file of ten octets.
const FILE: &str = "ten";

/// Puts what an upload asks, and its status.
pub(crate) fn put(rt: &HostRuntime, paper: &mut Paper, row: TransferRow<'_>) -> io::Result<()> {
    let Some(opened) = rt.open_source(FILE, 0)? else {
        return Err(Error::from(ErrorKind::InvalidInput));
    };
    let source = UploadSource::file(FILE, opened);
    let openings = Openings::new(row.opening);
    let mut uploading = Uploading::new(rt, rt.alloc(), source, "a", row.how, &openings);
    let answer = played(rt.alloc(), paper, row, &mut uploading);
    paper.put(b"; ");
    put_end(paper, &uploading, &answer)?;
    paper.line(b"");
    Ok(())
}

/// Puts the status of an upload that was answered so.
fn put_end(
    paper: &mut Paper,
    uploading: &Uploading<'_, HostRuntime>,
    answer: &Result<Answer<Global>, SessionFault>,
) -> io::Result<()> {
    let Ok(answer) = answer else {
        paper.put(b"stopped");
        return Ok(());
    };
    let status = uploading.finish(answer, &LastReply::new())?;
    paper.number(u64::from(status.number()));
    Ok(())
}
