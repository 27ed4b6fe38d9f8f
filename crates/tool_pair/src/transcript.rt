// The lines of a control connection, cut from the octets that were taken.
ghost use Rattle.std.specs.Prelude.{◌≡◌, ◌∷◌, ◌++◌, [], IfOk, OnOk};
ghost use Rattle.ftp_facts.specs.Fact.{Lacks};
ghost use Rattle.ftp_nvt.specs.Lines.{without_return};
ghost use Rattle.ftp_pair_events.specs.events.Shown.{queue_of};
ghost use Rattle.tool_pair.specs.Transcript.{delivered, told_line};
ghost use Rattle.tool_pair.specs.Telling.{Ends, HasTold, TellsMore, is_transcript_wanted, text_of};

use ftp_facts::cut_at;
use ftp_pair::Queue;
use std::alloc::{AllocError, Allocator};

/// The lines so far that were taken whole, and what was taken of those that are not.
#[derive(Drop)]
pub struct Transcript<A: Allocator + Copy> {
    wanted: bool,
    lines: Vec<u8, A>,
    to_server: Vec<u8, A>,
    to_client: Vec<u8, A>,
}

impl<A: Allocator + Copy> Transcript<A> {
    /// No lines yet; none are kept where they are not wanted. Takes no memory.
    pub fn new(alloc: A, wanted: bool) -> Transcript<A>
        ensures wanted { is_transcript_wanted result ≡ wanted }
        // Witness of told: equations.
        ensures told { HasTold result [] }
    {
        Transcript {
            wanted,
            lines: Vec::new(alloc),
            to_server: Vec::new(alloc),
            to_client: Vec::new(alloc),
        }
    }

    /// Octets of a queue were taken by its receiver. Refused memory, a transcript is of no use any more.
    pub fn take(&mut self, queue: Queue, octets: &[u8]) -> Result<(), AllocError>
        // Witness: `edits/the_front_of_a_line_is_forgotten`, `the_end_of_a_line_is_told`; text and unfinished lines are equations.
        // Witness: `edits/nothing_is_told`, `a_line_is_told_before_its_end`, `a_line_is_told_twice`, `lines_of_the_server_are_the_clients`.
        ensures tells { OnOk result (TellsMore self.old (delivered (queue_of queue) octets.now ∷ []) self.new) }
    {
        if !self.wanted {
            return Ok(());
        }
        match queue {
            Queue::ControlToServer => {
                put_lines(b"C: ", octets, &mut self.to_server, &mut self.lines)
            }
            Queue::ControlToClient => {
                put_lines(b"S: ", octets, &mut self.to_client, &mut self.lines)
            }
            Queue::DataToServer | Queue::DataToClient => Ok(()),
        }
    }

    /// The lines, with who says each before it.
    pub fn lines(&self) -> &[u8]
        // Witness: an equation; `edits/the_transcript_says_done`.
        ensures { result.now ≡ text_of self.now }
    {
        self.lines.as_slice()
    }
}

/// Puts the lines that end in these octets after the others; `part` is what came of a line before, and what did.
fn put_lines<A: Allocator + Copy>(
    who: &[u8],
    octets: &[u8],
    part: &mut Vec<u8, A>,
    lines: &mut Vec<u8, A>,
) -> Result<(), AllocError>
    ensures { OnOk result (Ends who.now octets.now part.old.items lines.old.items part.new.items lines.new.items) }
{
    let mut rest = octets;
    while let Some((line, more)) = cut_at(rest, b'\n') {
        end_line(who, line, part, lines)?;
        rest = more;
    }
    part.extend_from_slice(rest)?;
    Ok(())
}

/// The unfinished line and what came of it now are a line, which is put after the others.
fn end_line<A: Allocator + Copy>(
    who: &[u8],
    line: &[u8],
    part: &mut Vec<u8, A>,
    lines: &mut Vec<u8, A>,
) -> Result<(), AllocError>
    ensures { Lacks line.now 10 → OnOk result (Ends who.now (line.now ++ 10 ∷ []) part.old.items lines.old.items part.new.items lines.new.items) }
{
    part.extend_from_slice(line)?;
    put_line(who, without_return(part.as_slice()), lines)?;
    part.clear();
    Ok(())
}

/// Puts a line after the others, with who says it.
fn put_line<A: Allocator + Copy>(
    who: &[u8],
    line: &[u8],
    lines: &mut Vec<u8, A>,
) -> Result<(), AllocError>
    ensures { OnOk result (lines.new.items ≡ lines.old.items ++ told_line who.now line.now) }
{
    lines.extend_from_slice(who)?;
    lines.extend_from_slice(line)?;
    lines.push(b'\n')?;
    Ok(())
}

/// A line without the CR at its end.
fn without_return(line: &[u8]) -> &[u8]
    ensures { result.now ≡ without_return line.now }
{
    match line.split_last() {
        Some((last, front)) if *last == b'\r' => front,
        _ => line,
    }
}
