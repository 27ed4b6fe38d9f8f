//! From a line to an entry.
ghost use Rattle.std.specs.Prelude.{◌≡◌, Some, None, option_map, IfOk, IfErr, OnErr};
ghost use Rattle.std.specs.Option.{option_copied};
ghost use Rattle.ftp_facts.specs.Value.{number_value};
ghost use Rattle.ftp_facts.specs.Moment.{moment_value};
ghost use Rattle.ftp_facts.specs.Listed.{fact_value};
ghost use Rattle.ftp_facts.specs.Entry.{HasParts, IsFitEntry, NoParts, Refuses, SaysEntry, SaysListed, listed_in, listed_lent, texts_of};

use crate::cutting::cut_at;
use crate::facts::value_of;
use crate::{Entry, FactFault, FactName, LentEntry, Moment, moment_of_text};
use ftp_endpoint::number;
use ftp_path::is_path_text;
use std::alloc::Allocator;

/// Reads a line of a listing, without its end (RFC 3659, section 7.2).
///
/// Of several faults the one with the lowest number is given; the whole line is always read. Memory is asked for last, so
/// that `Memory` comes only where there is no other fault.
pub fn read_entry<A: Allocator + Copy>(alloc: A, line: &[u8]) -> Result<Entry<A>, FactFault>
    // Witness of says: law: `laws::one_entry`; caller: `laws::entry_comes_back`, `back`.
    ensures says { IfOk result (SaysEntry line.now) }
    // Witness of refuses: laws: `laws::one_fault`, `no_fault`; caller: `laws::entry_comes_back`, `fault`.
    ensures refuses { IfErr result (Refuses line.now) }
{
    let seen = see(line)?;
    match Entry::copy_of(alloc, seen) {
        Ok(entry) => Ok(entry),
        Err(_) => Err(FactFault::Memory),
    }
}

/// What a line says, lent from it.
fn see(line: &[u8]) -> Result<LentEntry<'_>, FactFault>
    ensures says { IfOk result (λ seen. SaysListed line.now (listed_in seen)) }
    ensures fits { IfOk result (λ seen. IsFitEntry (listed_lent seen)) }
    ensures refuses { IfErr result (Refuses line.now) }
{
    let parts = parts_of(line)?;
    if parts.name.is_empty() {
        return Err(FactFault::BadFact);
    }
    let seen = LentEntry {
        name: parts.name,
        kind: parts.kind,
        size: read_size(parts.size)?,
        modify: read_modify(parts.modify)?,
        perm: parts.perm,
    };
    if !is_path_text(seen.name) {
        return Err(FactFault::BadName);
    }
    Ok(seen)
}

/// What stands in a line: its pathname, and the values of the first fact of each name.
#[derive(Clone, Copy)]
struct Parts<'a> {
    name: &'a [u8],
    kind: Option<&'a [u8]>,
    size: Option<&'a [u8]>,
    modify: Option<&'a [u8]>,
    perm: Option<&'a [u8]>,
}

fn parts_of(line: &[u8]) -> Result<Parts<'_>, FactFault>
    ensures parts { IfOk result (λ parts. HasParts line.now parts.name.now (texts_of parts)) }
    ensures silent { IfErr result (NoParts line.now) }
{
    let Some((facts, name)) = cut_at(line, b' ') else {
        return Err(FactFault::NoSpace);
    };
    Ok(Parts {
        name,
        kind: value_of(facts, FactName::Kind.word())?,
        size: value_of(facts, FactName::Size.word())?,
        modify: value_of(facts, FactName::Modify.word())?,
        perm: value_of(facts, FactName::Perm.word())?,
    })
}

/// The number that a Size is, where there is one.
fn read_size(text: Option<&[u8]>) -> Result<Option<u64>, FactFault>
    ensures says { IfOk result (λ size. fact_value number_value (option_copied text.entry) ≡ Some size) }
    ensures silent { OnErr result (fact_value number_value (option_copied text.entry) ≡ None) }
    ensures fault { IfErr result (λ fault. fault ≡ FactFault.BadFact) }
{
    match text {
        None => Ok(None),
        Some(digits) => match number(digits) {
            Some(size) => Ok(Some(size)),
            None => Err(FactFault::BadFact),
        },
    }
}

/// The moment that a Modify says, where there is one.
fn read_modify(text: Option<&[u8]>) -> Result<Option<Moment>, FactFault>
    ensures says { IfOk result (λ modify. fact_value moment_value (option_copied text.entry)
        ≡ Some (option_map (λ moment. moment.seconds) modify)) }
    ensures silent { OnErr result (fact_value moment_value (option_copied text.entry) ≡ None) }
    ensures fault { IfErr result (λ fault. fault ≡ FactFault.BadMoment) }
{
    match text {
        None => Ok(None),
        Some(text) => match moment_of_text(text) {
            Ok(moment) => Ok(Some(moment)),
            Err(fault) => Err(fault),
        },
    }
}
