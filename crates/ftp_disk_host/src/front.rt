// The octets of a file that stay in front of what was written.
ghost use Rattle.std.specs.Prelude.{◌<◌, OnOk, length};
ghost use Rattle.ftp_disk_host.specs.Copied.{Copies};

use crate::part::SystemPart;
use crate::reading::{open_same, read_some};
use std::alloc::Global;
use std::fs::Files;
use std::io;
use std::io::{Read, Seek, SeekFrom, Write};

/// How many octets are copied at once.
pub(crate) const PIECE: usize = 262_144;

/// Copies the first octets of a file, `count` of them, and then all that a part has, into a part that has none.
pub(crate) fn put_front<R: Files>(
    files: &R,
    alloc: Global,
    old: &mut R::File,
    count: u64,
    part: &mut SystemPart<R::File>,
    fresh: &mut SystemPart<R::File>,
) -> io::Result<()> {
    let mut room = vec![in alloc; 0u8; PIECE]?;
    copy_front(old, count, &mut fresh.file, room.as_mut_slice())?;
    put_written(files, alloc, part, fresh)
}

/// Copies all that was written of a part into another one.
pub(crate) fn put_written<R: Files>(
    files: &R,
    alloc: Global,
    part: &mut SystemPart<R::File>,
    fresh: &mut SystemPart<R::File>,
) -> io::Result<()> {
    let mut room = vec![in alloc; 0u8; PIECE]?;
    part.hand_on()?;
    let look = part.look()?;
    let mut came = open_same(files, part.beside()?, look)?;
    came.seek(SeekFrom::Start(part.owed))?;
    let count = look.len.saturating_sub(part.owed);
    copy_front(&mut came, count, &mut fresh.file, room.as_mut_slice())
}

/// Copies the next octets that a reader gives, `count` of them, to a writer.
pub(crate) fn copy_front<F: Read, W: Write>(
    from: &mut F,
    count: u64,
    to: &mut W,
    room: &mut [u8],
) -> io::Result<()>
    requires { 0 < length room.old }
    ensures { OnOk result (Copies count (F.remaining from.old) (F.remaining from.new) (W.contents to.old) (W.contents to.new)) }
{
    let mut left = count;
    while left > 0 {
        let want = left.min(room.len() as u64) as usize;
        let (front, _) = room.split_at_mut(want);
        let got = read_some(from, front)?;
        to.write_all(&front[..got])?;
        left -= got as u64;
    }
    Ok(())
}
