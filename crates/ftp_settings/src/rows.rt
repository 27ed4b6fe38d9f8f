//! Worked rows: a function that does nothing, whose contract is the rows of `specs/Rows`.
ghost use Rattle.ftp_settings.specs.Rows.{DefaultsStated, OctetsOfMarkers, OneHasMarkers};

/// The defaults, the eight representations, and octets of a marker.
pub fn settings()
    // Witness: rows of the definitions.
    ensures defaults { DefaultsStated }
    ensures markers { OneHasMarkers }
    ensures octets { OctetsOfMarkers }
{}
