// How many octets there are, as people read it.
ghost use Rattle.std.specs.Prelude.{◌≡◌};
ghost use Rattle.tool_terminal.specs.progress.Measure.{measured, octets_of, unit_for};

use std::fmt;
use std::fmt::{Display, Formatter};

/// In what octets are counted: each unit is 1,024 of the one before, as curl, wget and lftp count (IEC 80000-13).
#[derive(Clone, Copy, Debug, PartialEq, Eq)]
pub enum Unit {
    Octet,
    Kibi,
    Mebi,
    Gibi,
    Tebi,
}

impl Unit {
    /// How many octets one has.
    fn octets(self) -> u64
        ensures { result ≡ octets_of self }
    {
        match self {
            Unit::Octet => 1,
            Unit::Kibi => 1_024,
            Unit::Mebi => 1_048_576,
            Unit::Gibi => 1_073_741_824,
            Unit::Tebi => 1_099_511_627_776,
        }
    }

    /// Its name, behind a number.
    fn name(self) -> &'static str {
        match self {
            Unit::Octet => "B",
            Unit::Kibi => "KiB",
            Unit::Mebi => "MiB",
            Unit::Gibi => "GiB",
            Unit::Tebi => "TiB",
        }
    }
}

/// So many octets in a unit, rounded down to a tenth.
#[derive(Clone, Copy)]
pub struct Measure {
    /// How many whole ones there are.
    pub whole: u128,
    /// How many tenths of one behind them, 0 to 9.
    pub tenths: u128,
    pub unit: Unit,
}

/// The greatest unit of which so many octets have one; a single octet is the unit of less.
pub fn unit_for(count: u128) -> Unit
    // Witness: an equation; `edits/a_mebibyte_begins_at_a_million`.
    ensures { result ≡ unit_for count }
{
    if count < u128::from(Unit::Kibi.octets()) {
        Unit::Octet
    } else if count < u128::from(Unit::Mebi.octets()) {
        Unit::Kibi
    } else if count < u128::from(Unit::Gibi.octets()) {
        Unit::Mebi
    } else if count < u128::from(Unit::Tebi.octets()) {
        Unit::Gibi
    } else {
        Unit::Tebi
    }
}

/// So many octets in this unit.
pub fn measured(unit: Unit, count: u128) -> Measure
    ensures { result ≡ measured unit count }
{
    let one = u128::from(unit.octets());
    Measure {
        whole: count / one,
        tenths: count % one * 10 / one,
        unit,
    }
}

impl Measure {
    /// Writes how many there are, without the unit: single octets have no tenths.
    pub(crate) fn write_number<W: fmt::Write>(&self, formatter: &mut Formatter<W>) -> fmt::Result {
        let Measure {
            whole,
            tenths,
            unit,
        } = *self;
        match unit {
            Unit::Octet => write!(formatter, "{whole}"),
            _ => write!(formatter, "{whole}.{tenths}"),
        }
    }
}

/// `5.2 MiB`, and `512 B` of less than 1,024.
impl Display for Measure {
    fn fmt<W: fmt::Write>(&self, formatter: &mut Formatter<W>) -> fmt::Result {
        self.write_number(formatter)?;
        let name = self.unit.name();
        write!(formatter, " {name}")
    }
}
