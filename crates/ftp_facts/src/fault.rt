//! Why a line is no entry, or a text no moment.
ghost use Rattle.std.specs.Prelude.{Some};
ghost use Rattle.ftp_facts.specs.Fault.{fact_fault_text};

use std::error::Error;
use std::fmt;

/// Why a line is no entry, or a text no moment.
#[derive(Clone, Copy, Debug, PartialEq, Eq)]
pub enum FactFault {
    /// The line has no space, which ends the facts.
    NoSpace,
    /// A fact has no `=` or no `;`, a Size is no number of 1 to 18 digits, or the pathname is empty.
    BadFact,
    /// A Modify, or the text of a moment, is no real date and time from 1970 on.
    BadMoment,
    /// Memory was refused.
    Memory,
    /// The pathname is no path text.
    BadName,
}

impl FactFault {
    ghost use Rattle.std.specs.Prelude.{◌≡◌};

    /// The number and the name, as `Display` prints them.
    pub fn text(self) -> &'static str
        ensures { result.now ≡ fact_fault_text self }
    {
        match self {
            FactFault::NoSpace => "F1 NoSpace",
            FactFault::BadFact => "F2 BadFact",
            FactFault::BadMoment => "F3 BadMoment",
            FactFault::Memory => "F4 Memory",
            FactFault::BadName => "F5 BadName",
        }
    }
}

impl fmt::Display for FactFault {
    ghost output = { λ fault. Some (fact_fault_text fault) };

    fn fmt<W: fmt::Write>(&self, f: &mut fmt::Formatter<W>) -> fmt::Result {
        f.write_str(self.text())
    }
}

impl Error for FactFault {}
