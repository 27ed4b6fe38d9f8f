// The facts of an entry by name, and which of them are in force.
ghost use Rattle.std.specs.Prelude.{◌≡◌, ◌≤◌, length};
ghost use Rattle.std.specs.List.{slice_split};
ghost use Rattle.ftp_facts.specs.Listed.{is_semicolon};
ghost use Rattle.ftp_facts.specs.Name.{fact_word, facts_named, is_any_chosen, is_in_force, names_fact};

/// A fact of an entry, of those that are said and read here (RFC 3659, section 7.5; which these are is an own choice).
#[derive(Clone, Copy, Debug, PartialEq, Eq)]
pub enum FactName {
    /// Type: a file, a directory, or what else it is (section 7.5.1).
    Kind,
    /// Its size in octets (section 7.5.7).
    Size,
    /// When it was changed last (section 7.5.3).
    Modify,
    /// What the user may do with it (section 7.5.5).
    Perm,
}

impl FactName {
    /// All of them, in the order in which they are written (own choice).
    pub const ALL: [FactName; 4] = [
        FactName::Kind,
        FactName::Size,
        FactName::Modify,
        FactName::Perm,
    ];

    /// The word that names it, of at most 6 octets; the case of its letters is of no matter.
    pub fn word(self) -> &'static [u8]
        // Witness: equation; its bound.
        ensures word { result.now ≡ fact_word self }
        ensures short { length result.now ≤ 6 }
    {
        match self {
            FactName::Kind => b"Type",
            FactName::Size => b"Size",
            FactName::Modify => b"Modify",
            FactName::Perm => b"Perm",
        }
    }
}

/// Which facts are in force (RFC 3659, section 7.9).
#[derive(Clone, Copy)]
pub struct Facts {
    kind: bool,
    size: bool,
    modify: bool,
    perm: bool,
}

impl Facts {
    /// All of them.
    pub const ALL: Facts = Facts {
        kind: true,
        size: true,
        modify: true,
        perm: true,
    };

    /// Those that the words of a text name, each ended by a semicolon and in whatever case; other words are passed over (RFC 3659,
    /// section 7.9).
    pub fn named(text: &[u8]) -> Facts
        ensures { result ≡ facts_named (slice_split is_semicolon text.now) }
    {
        Facts {
            kind: names_fact(text, FactName::Kind),
            size: names_fact(text, FactName::Size),
            modify: names_fact(text, FactName::Modify),
            perm: names_fact(text, FactName::Perm),
        }
    }

    /// Whether a fact is in force.
    pub fn has(self, name: FactName) -> bool
        ensures { result ≡ is_in_force self name }
    {
        match name {
            FactName::Kind => self.kind,
            FactName::Size => self.size,
            FactName::Modify => self.modify,
            FactName::Perm => self.perm,
        }
    }

    /// Whether some fact is in force.
    pub fn has_any(self) -> bool
        ensures { result ≡ is_any_chosen self }
    {
        self.kind || self.size || self.modify || self.perm
    }
}

/// Whether one of the words of a text names a fact.
fn names_fact(text: &[u8], name: FactName) -> bool
    ensures { result ≡ names_fact (slice_split is_semicolon text.now) name }
{
    let word = name.word();
    text.split(|octet| *octet == b';')
        .any(|each| each.eq_ignore_ascii_case(word))
}
