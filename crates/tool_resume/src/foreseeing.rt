// What a download asks of a server as far as its first try, for whoever asks it ahead.
ghost use Rattle.std.specs.Prelude.{◌≡◌, ◌++◌, IfOk, OnOk};
ghost use Rattle.tool_resume.specs.Questions.{asked_in_a_row, version_questions};

use crate::retry::{is_counted, moment_request, size_request};
use ftp_operation::How;
use std::alloc::{AllocError, Global};
use tool_session::Request;

/// What a download of the file at a path asks one directly behind another, where its first try is this request and all comes: which file the server has
/// before it, unless that was just listed (`Downloading::expect`), and behind it. Fails where memory is refused.
pub fn download_row(
    alloc: Global,
    path: &str,
    how: How,
    first: Request,
    is_listed: bool,
) -> Result<Vec<Request, Global>, AllocError>
    // Witness: an equation; `edits/the_file_is_not_asked_about_behind_its_octets`.
    ensures { IfOk result (λ row. row.items ≡ asked_in_a_row path.now how first is_listed) }
{
    let mut row = Vec::new(alloc);
    if !is_listed {
        put_questions(alloc, path, how, &mut row)?;
    }
    row.push(first)?;
    put_questions(alloc, path, how, &mut row)?;
    Ok(row)
}

/// The questions by which a download knows which file the server has.
fn put_questions(
    alloc: Global,
    path: &str,
    how: How,
    row: &mut Vec<Request, Global>,
) -> Result<(), AllocError>
    ensures { OnOk result (row.new.items ≡ row.old.items ++ version_questions path.now how) }
{
    if is_counted(how) {
        row.push(size_request(alloc, path, how)?)?;
    }
    row.push(moment_request(alloc, path)?)?;
    Ok(())
}
