// What stands behind a verb, by the number of its fields.
ghost use Rattle.std.specs.Prelude.{◌≡◌, ◌∷◌, [], map, true};
ghost use Rattle.ftp_facts.specs.Value.{number_value};
ghost use Rattle.tool_script.specs.Line.{Reads, giving_from_in, giving_in, how_value, none_in, pair_in, path_in, taking_from_in, taking_in};

use crate::fault::LineFault;
use crate::field::octets_of;
use crate::how::how_of;
use ftp_endpoint::number;
use ftp_facts::Text;
use ftp_operation::How;
use std::alloc::Allocator;

/// No field.
pub(crate) fn none(fields: &[&[u8]]) -> Result<(), LineFault>
    ensures { Reads (λ _. true) result (none_in (map (λ field. field.now) fields.now)) }
{
    match fields {
        [] => Ok(()),
        _ => Err(LineFault::Unfit),
    }
}

/// A path alone.
pub(crate) fn path<A: Allocator + Copy>(alloc: A, fields: &[&[u8]]) -> Result<Text<A>, LineFault>
    ensures { Reads (λ text. text) result (path_in (map (λ field. field.now) fields.now)) }
{
    match fields {
        [path] => octets_of(alloc, path),
        _ => Err(LineFault::Unfit),
    }
}

/// Two texts alone.
pub(crate) fn pair<A: Allocator + Copy>(
    alloc: A,
    fields: &[&[u8]],
) -> Result<(Text<A>, Text<A>), LineFault>
    ensures { Reads (λ pair. pair) result (pair_in (map (λ field. field.now) fields.now)) }
{
    match fields {
        [one, other] => pair_of(alloc, one, other),
        _ => Err(LineFault::Unfit),
    }
}

fn pair_of<A: Allocator + Copy>(
    alloc: A,
    one: &[u8],
    other: &[u8],
) -> Result<(Text<A>, Text<A>), LineFault>
    ensures { Reads (λ pair. pair) result (pair_in (one.now ∷ other.now ∷ [])) }
{
    match octets_of(alloc, one) {
        Ok(one) => match octets_of(alloc, other) {
            Ok(other) => Ok((one, other)),
            Err(fault) => Err(fault),
        },
        Err(fault) => Err(fault),
    }
}

/// How octets go, and a path.
pub(crate) fn taking<A: Allocator + Copy>(
    alloc: A,
    fields: &[&[u8]],
) -> Result<(How, Text<A>), LineFault>
    ensures { Reads (λ parts. parts) result (taking_in (map (λ field. field.now) fields.now)) }
{
    match fields {
        [how, path] => taking_of(alloc, how, path),
        _ => Err(LineFault::Unfit),
    }
}

fn taking_of<A: Allocator + Copy>(
    alloc: A,
    how: &[u8],
    path: &[u8],
) -> Result<(How, Text<A>), LineFault>
    ensures { Reads (λ parts. parts) result (taking_in (how.now ∷ path.now ∷ [])) }
{
    let Some(how) = how_of(how) else {
        return Err(LineFault::Unfit);
    };
    match octets_of(alloc, path) {
        Ok(path) => Ok((how, path)),
        Err(fault) => Err(fault),
    }
}

/// The same, and a number.
pub(crate) fn taking_from<A: Allocator + Copy>(
    alloc: A,
    fields: &[&[u8]],
) -> Result<(How, Text<A>, u64), LineFault>
    ensures { Reads (λ parts. parts) result (taking_from_in (map (λ field. field.now) fields.now)) }
{
    match fields {
        [how, path, number] => taking_from_of(alloc, how, path, number),
        _ => Err(LineFault::Unfit),
    }
}

fn taking_from_of<A: Allocator + Copy>(
    alloc: A,
    how: &[u8],
    path: &[u8],
    number: &[u8],
) -> Result<(How, Text<A>, u64), LineFault>
    ensures { Reads (λ parts. parts) result (taking_from_in (how.now ∷ path.now ∷ number.now ∷ [])) }
{
    match taking_of(alloc, how, path) {
        Ok((how, path)) => match number_in(number) {
            Some(number) => Ok((how, path, number)),
            None => Err(LineFault::Unfit),
        },
        Err(fault) => Err(fault),
    }
}

/// The number that a text is: 1 to 18 digits.
#[tactic(auto, using(ftp_facts::proofs::NumberLemmas::no_number))]
fn number_in(text: &[u8]) -> Option<u64>
    ensures { result ≡ number_value text.now }
{
    match number(text) {
        Some(value) => Some(value),
        None => None,
    }
}

/// How octets go, a path and octets.
pub(crate) fn giving<A: Allocator + Copy>(
    alloc: A,
    fields: &[&[u8]],
) -> Result<(How, Text<A>, Text<A>), LineFault>
    ensures { Reads (λ parts. parts) result (giving_in (map (λ field. field.now) fields.now)) }
{
    match fields {
        [how, path, octets] => giving_of(alloc, how, path, octets),
        _ => Err(LineFault::Unfit),
    }
}

fn giving_of<A: Allocator + Copy>(
    alloc: A,
    how: &[u8],
    path: &[u8],
    octets: &[u8],
) -> Result<(How, Text<A>, Text<A>), LineFault>
    ensures { Reads (λ parts. parts) result (giving_in (how.now ∷ path.now ∷ octets.now ∷ [])) }
{
    let Some(how) = how_of(how) else {
        return Err(LineFault::Unfit);
    };
    match pair_of(alloc, path, octets) {
        Ok((path, octets)) => Ok((how, path, octets)),
        Err(fault) => Err(fault),
    }
}

/// How octets go, a path, a number and octets.
pub(crate) fn giving_from<A: Allocator + Copy>(
    alloc: A,
    fields: &[&[u8]],
) -> Result<(How, Text<A>, u64, Text<A>), LineFault>
    ensures { Reads (λ parts. parts) result (giving_from_in (map (λ field. field.now) fields.now)) }
{
    match fields {
        [how, path, number, octets] => giving_from_of(alloc, how, path, number, octets),
        _ => Err(LineFault::Unfit),
    }
}

fn giving_from_of<A: Allocator + Copy>(
    alloc: A,
    how: &[u8],
    path: &[u8],
    number: &[u8],
    octets: &[u8],
) -> Result<(How, Text<A>, u64, Text<A>), LineFault>
    ensures { Reads (λ parts. parts) result (giving_from_in (how.now ∷ path.now ∷ number.now ∷ octets.now ∷ [])) }
{
    match taking_from_of(alloc, how, path, number) {
        Ok((how, path, number)) => match octets_of(alloc, octets) {
            Ok(octets) => Ok((how, path, number, octets)),
            Err(fault) => Err(fault),
        },
        Err(fault) => Err(fault),
    }
}
