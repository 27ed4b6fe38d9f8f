//! From an entry to its line.
ghost use Rattle.std.specs.Prelude.{◌≡◌, ◌++◌, Some, option_map, OnOk, OnErr, IfErr};
ghost use Rattle.ftp_facts.specs.Entry.{entry_line, listed_lent, value_text};
ghost use Rattle.ftp_facts.specs.Fact.{facts_text, given};
ghost use Rattle.ftp_facts.specs.Line.{facts_of, listed_line, said_texts};
ghost use Rattle.ftp_facts.specs.Name.{fact_word};
ghost use Rattle.ftp_facts.specs.Sink.{WritesPart, Writes};

use crate::entry::FactValue;
use crate::{Entry, FactFault, FactName, Facts, LentEntry, LineSink, moment_text};
use itoa::Buffer;
use std::alloc::{AllocError, Allocator};

/// Appends the line of an entry with all its facts, without an end (RFC 3659, section 7.2). Refused memory, `out` is as before.
pub fn write_entry<A: Allocator + Copy, B: Allocator + Copy>(
    entry: &Entry<A>,
    out: &mut Vec<u8, B>,
) -> Result<(), FactFault>
    // Witness of line: equation; law: `laws::entry_line_says`; caller: `laws::entry_comes_back`, `back`.
    ensures line { OnOk result (out.new.items ≡ out.old.items ++ entry_line entry.now) }
    ensures unchanged { OnErr result (out.new.items ≡ out.old.items) }
    // Witness of fault: equation; caller: `laws::entry_comes_back`, `fault`.
    ensures fault { IfErr result (λ fault. fault ≡ FactFault.Memory) }
{
    let start = out.len();
    match write_entry_line(entry.lent(), Facts::ALL, out) {
        Ok(()) => Ok(()),
        Err(_) => {
            out.truncate(start);
            Err(FactFault::Memory)
        }
    }
}

/// Writes the line of an entry, without an end: its facts that are in force and that it has, in the order of `FactName::ALL`, a
/// space and the pathname (RFC 3659, section 7.2). Refused, a part of it may stand there. Takes no memory but the sink's.
pub fn write_entry_line<S: LineSink>(
    lent: LentEntry<'_>,
    facts: Facts,
    out: &mut S,
) -> Result<(), AllocError>
    // Witness of ok: equation; caller: `write_entry`, `line`.
    ensures ok { OnOk result (Writes S.held S.form S.left (listed_line facts (listed_lent lent.entry)) out.old out.new) }
    // Witness of err: caller: `write_entry`, `unchanged`; `put_listed` of `ftp_server_replies`.
    ensures err { OnErr result (WritesPart S.held S.left (listed_line facts (listed_lent lent.entry)) out.old out.new) }
{
    write_facts(lent, facts, out)?;
    out.write_text(b" ")?;
    out.write_text(lent.name)
}

/// Writes the facts of an entry that are in force.
fn write_facts<S: LineSink>(
    lent: LentEntry<'_>,
    facts: Facts,
    out: &mut S,
) -> Result<(), AllocError>
    ensures ok { OnOk result (Writes S.held S.form S.left (facts_text (facts_of (said_texts facts (listed_lent lent.entry)))) out.old out.new) }
    ensures err { OnErr result (WritesPart S.held S.left (facts_text (facts_of (said_texts facts (listed_lent lent.entry)))) out.old out.new) }
{
    for name in FactName::ALL {
        if facts.has(name) {
            write_given(name, lent.value(name), out)?;
        }
    }
    Ok(())
}

/// Writes a fact, where there is a value for it.
fn write_given<S: LineSink>(
    name: FactName,
    value: Option<FactValue<'_>>,
    out: &mut S,
) -> Result<(), AllocError>
    ensures ok { OnOk result (Writes S.held S.form S.left (facts_text (given (fact_word name) (option_map value_text value.entry))) out.old out.new) }
    ensures err { OnErr result (WritesPart S.held S.left (facts_text (given (fact_word name) (option_map value_text value.entry))) out.old out.new) }
{
    match value {
        None => Ok(()),
        Some(FactValue::Text(text)) => write_fact(name, text, out),
        Some(FactValue::Number(number)) => {
            write_fact(name, Buffer::new().format(number).as_bytes(), out)
        }
        Some(FactValue::Stamp(moment)) => write_fact(name, &moment_text(moment), out),
    }
}

/// Writes `name=value;`.
fn write_fact<S: LineSink>(name: FactName, value: &[u8], out: &mut S) -> Result<(), AllocError>
    ensures ok { OnOk result (Writes S.held S.form S.left (facts_text (given (fact_word name) (Some value.now))) out.old out.new) }
    ensures err { OnErr result (WritesPart S.held S.left (facts_text (given (fact_word name) (Some value.now))) out.old out.new) }
{
    out.write_text(name.word())?;
    out.write_text(b"=")?;
    out.write_text(value)?;
    out.write_text(b";")
}
