//! A text cut at an octet.
ghost use Rattle.std.specs.Prelude.{◌≡◌, ◌∷◌, ◌++◌, IfSome, IfNone};
ghost use Rattle.ftp_facts.specs.Fact.{Lacks};

/// What stands before the first such octet, and what follows it; `None` where it stands nowhere.
pub fn cut_at(octets: &[u8], octet: u8) -> Option<(&[u8], &[u8])>
    // Witness: caller: `read_entry`, `says` and `refuses`.
    ensures some { IfSome result (λ parts. octets.now ≡ parts.0.now ++ octet ∷ parts.1.now) }
    ensures first { IfSome result (λ parts. Lacks parts.0.now octet) }
    ensures none { IfNone result (Lacks octets.now octet) }
{
    let place = octets.iter().position(|each| *each == octet)?;
    let (front, back) = octets.split_at(place);
    Some((front, &back[1..]))
}
