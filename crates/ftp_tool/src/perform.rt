// What the program does for a command line, between a reader and two writers.
ghost use Rattle.std.specs.Prelude.{◌≡◌, ◌≢◌};
ghost use Rattle.ftp_tool.specs.Perform.{DoesTask, TaskBreaksOff};

use std::alloc::Allocator;
use std::io::{Read, Write};
use tool_codec::{facts, frame};
use tool_command::CommandTask;
use tool_dialogue::dialogue;

/// Does a task and gives the exit status; `faults` is told the fault of a wire, and nothing else.
pub fn perform<A, R, W, F>(
    alloc: A,
    task: CommandTask,
    reader: &mut R,
    writer: &mut W,
    faults: &mut F,
) -> u8
where
    A: Allocator + Copy,
    R: Read,
    W: Write,
    F: Write,
    // Witness: `edits/facts_are_read_as_a_dialogue`.
    ensures done { result ≢ 3 → DoesTask A task (R.remaining reader.old) (R.remaining reader.new) (W.contents writer.old) (W.contents writer.new)
        (F.contents faults.old) (F.contents faults.new) result }
    ensures failed { result ≡ 3 → TaskBreaksOff A task (R.remaining reader.old) (R.remaining reader.new) (W.contents writer.old) (W.contents writer.new)
        (F.contents faults.old) (F.contents faults.new) }
{
    match task {
        CommandTask::Dialogue { piece } => dialogue(alloc, reader, writer, piece),
        CommandTask::Facts => facts(alloc, reader, writer),
        CommandTask::Frame { form, direction } => frame(
            alloc, form, direction, reader, writer, faults,
        ),
    }
}
