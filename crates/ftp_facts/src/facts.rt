//! The facts of a line, one after another.
ghost use Rattle.std.specs.Prelude.{◌≡◌, ℕ, List, IfSome, IfNone, IfOk, IfErr};
ghost use Rattle.std.specs.Option.{option_copied};
ghost use Rattle.ftp_facts.specs.Fact.{Fact, AreFacts, BeginsWithFact, HasValue};
ghost use Rattle.ftp_facts.specs.Fact as spec;

use crate::FactFault;
use crate::cutting::cut_at;

/// The value of the first fact of that name, whose letters have no case. Octets that are no facts are `BadFact`.
pub fn value_of<'a>(facts: &'a [u8], name: &[u8]) -> Result<Option<&'a [u8]>, FactFault>
    // Witness: caller: `read_entry`, `says` and `refuses`.
    ensures value { IfOk result (λ value. HasValue facts.now name.now (option_copied value)) }
    ensures silent { IfErr result (λ _. (list : List Fact) → ¬ (AreFacts facts.now list)) }
    ensures fault { IfErr result (λ fault. fault ≡ FactFault.BadFact) }
{
    let mut found = None;
    let mut rest = facts;
    while !rest.is_empty() {
        let Some((fact_name, value, after)) = split_fact(rest) else {
            return Err(FactFault::BadFact);
        };
        if found.is_none() && is_word(fact_name, name) {
            found = Some(value);
        }
        rest = after;
    }
    Ok(found)
}

/// The name and the value of the first fact, and what follows it.
fn split_fact(facts: &[u8]) -> Option<(&[u8], &[u8], &[u8])>
    ensures some { IfSome result (λ parts. BeginsWithFact facts.now parts.0.now parts.1.now parts.2.now) }
    ensures none { IfNone result ((name value rest : List ℕ) → ¬ (BeginsWithFact facts.now name value rest)) }
{
    let (fact, rest) = cut_at(facts, b';')?;
    let (name, value) = cut_at(fact, b'=')?;
    Some((name, value, rest))
}

/// Whether the two words are the same but for case.
pub fn is_word(text: &[u8], word: &[u8]) -> bool
    // Witness: equation; caller: `read_entry`, `says`.
    ensures { result ≡ spec.is_word text.now word.now }
{
    text.eq_ignore_ascii_case(word)
}
