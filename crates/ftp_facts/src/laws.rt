//! What reading and writing are to each other. The calls do nothing that a caller needs: their contracts are the laws.
ghost use Rattle.std.specs.Prelude.{◌≡◌, ◌≤◌, ◌↔◌, ℕ, List, Some, IsTrue, IfOk, IfErr};
ghost use Rattle.ftp_facts.specs.Moment.{SaysMoment, WritesMoment, moment_digits, moment_value};
ghost use Rattle.ftp_facts.specs.Listed.{Listed, entry_value};
ghost use Rattle.ftp_facts.specs.Entry.{SaysEntry, SaysListed, Refuses, entry_line};

use crate::{Entry, FactFault, Moment, moment_of_text, moment_text, read_entry, write_entry};
use std::alloc::Allocator;

/// The moments are the seconds up to the last of the year 9999, and no later ones.
pub fn moments_end(seconds: u64) -> bool
    // Witness: an equivalence, which names the one result.
    ensures { IsTrue result ↔ (seconds ≤ 253_402_300_799) }
{
    Moment::new(seconds).is_some()
}

/// A text says a moment just where it is six numbers of a real date and time, and perhaps a fraction.
pub fn moment_is_said()
    // Witness: laws, whose bodies are empty.
    ensures { (text : List ℕ) (seconds : ℕ) → (moment_value text ≡ Some seconds) ↔ SaysMoment text seconds }
{}

/// What is written of a moment says that moment.
pub fn written_is_said(text: &[u8], moment: Moment)
    requires { WritesMoment text.now moment.seconds }
    // Witness: laws, whose bodies are empty.
    ensures { moment_value text.now ≡ Some moment.seconds }
{}

/// The digits of a moment say that moment.
pub fn moment_digits_say(moment: Moment)
    // Witness: laws, whose bodies are empty.
    ensures { moment_value (moment_digits moment.seconds) ≡ Some moment.seconds }
{}

/// A moment's text is read as that moment.
pub fn moment_comes_back(moment: Moment) -> Result<Moment, FactFault>
    ensures { result ≡ Ok moment }
{
    moment_of_text(&moment_text(moment))
}

/// A line says an entry just where it is facts, a space and a pathname, whose values these are.
pub fn entry_is_said()
    // Witness: laws, whose bodies are empty.
    ensures { (line : List ℕ) (entry : Listed) → (entry_value line ≡ Some entry) ↔ SaysListed line entry }
{}

/// No line says two entries.
pub fn one_entry<A: Allocator + Copy>(line: &[u8], first: &Entry<A>, second: &Entry<A>)
    requires first { SaysEntry line.now first.now }
    requires second { SaysEntry line.now second.now }
    // Witness: laws, whose bodies are empty.
    ensures { first.now ≡ second.now }
{}

/// A line meets one fault.
pub fn one_fault(line: &[u8], first: FactFault, second: FactFault)
    requires first { Refuses line.now first }
    requires second { Refuses line.now second }
    // Witness: laws, whose bodies are empty.
    ensures { first ≡ second }
{}

/// A line that says an entry meets no fault: only memory can be refused.
pub fn no_fault<A: Allocator + Copy>(line: &[u8], entry: &Entry<A>)
    requires { SaysEntry line.now entry.now }
    // Witness: laws, whose bodies are empty.
    ensures { Refuses line.now FactFault.Memory }
{}

/// The line of an entry says that entry.
pub fn entry_line_says<A: Allocator + Copy>(entry: &Entry<A>)
    // Witness: laws, whose bodies are empty.
    ensures { SaysEntry (entry_line entry.now) entry.now }
{}

/// The line of an entry is read as that entry.
pub fn entry_comes_back<A: Allocator + Copy>(
    alloc: A,
    entry: &Entry<A>,
) -> Result<Entry<A>, FactFault>
    ensures back { IfOk result (λ back. back ≡ entry.now) }
    ensures fault { IfErr result (λ fault. fault ≡ FactFault.Memory) }
{
    let mut line = Vec::new(alloc);
    write_entry(entry, &mut line)?;
    read_entry(alloc, line.as_slice())
}
