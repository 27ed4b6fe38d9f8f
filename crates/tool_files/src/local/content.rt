// The octets of a file of this end, or of standard input.
ghost use Rattle.std.specs.Prelude.{◌≡◌};
ghost use Rattle.tool_files.specs.local.Content.{room_for};

use std::alloc::Global;
use std::fs::{File, Files, OpenFile};
use std::io;
use std::io::{Read, Seek, SeekFrom};
use std::time::SystemTime;

/// Octets of a file, and when it was changed last, where that is known.
#[derive(Drop)]
pub struct FileContent {
    pub octets: Vec<u8, Global>,
    pub changed: Option<SystemTime>,
}

/// What is read where a limit stands.
#[derive(Drop)]
pub enum LimitedContent {
    Content(FileContent),
    /// There are more octets than the limit: so many where the size is known before the end, and else so many at least.
    TooLarge(u64),
}

/// The octets of a file from one of them on, where it has `limit` octets at most.
pub fn read_from<R: Files + AllocGlobal>(
    files: &R,
    file: &str,
    from: u64,
    limit: u64,
) -> io::Result<LimitedContent> {
    let mut opened = File::open(files, file)?;
    let found = opened.metadata()?;
    if found.len() > limit {
        return Ok(LimitedContent::TooLarge(found.len()));
    }
    if from > 0 {
        let _place = opened.seek(SeekFrom::Start(from))?;
    }
    let octets = Vec::with_capacity(files.alloc(), found.len().saturating_sub(from) as usize)?;
    read_into(&mut opened, octets, from, limit, found.modified().ok())
}

/// All octets that a reader gives, where these are `limit` at most.
pub fn read_most<F: Read>(alloc: Global, reader: &mut F, limit: u64) -> io::Result<LimitedContent> {
    read_into(reader, Vec::new(alloc), 0, limit, None)
}

/// Reads to the end, and one octet past the limit at most.
fn read_into<F: Read>(
    reader: &mut F,
    octets: Vec<u8, Global>,
    from: u64,
    limit: u64,
    changed: Option<SystemTime>,
) -> io::Result<LimitedContent> {
    let mut octets = octets;
    let _count = reader.take(room_for(from, limit)).read_to_end(&mut octets)?;
    let size = from.saturating_add(octets.len() as u64);
    if size > limit {
        return Ok(LimitedContent::TooLarge(size));
    }
    Ok(LimitedContent::Content(FileContent { octets, changed }))
}

/// How many octets are read from one of them on, so that more than the limit are noticed.
fn room_for(from: u64, limit: u64) -> u64
    ensures { result ≡ room_for from limit }
{
    limit.saturating_sub(from).saturating_add(1)
}
