//! How far transfers are, as it is printed.
use crate::report::put_printed;
use rows_base::Paper;
use std::alloc::Global;
use tool_terminal::{Span, measured, pace_of, unit_for};

/// Sizes around the places where a unit begins.
const SIZES: &[u128] = &[
    0,
    1,
    1_023,
    1_024,
    1_126,
    1_127,
    1_048_575,
    1_048_576,
    1_073_741_823,
    1_073_741_824,
    1_099_511_627_775,
    1_099_511_627_776,
    36_893_488_147_419_103_230,
];

/// Transfers: the octets that were there before, those of the file, where that is known, those that were moved, and the milliseconds.
const TRANSFERS: &[(u64, Option<u64>, u64, u64)] = &[
    (0, Some(20_971_520), 5_452_596, 4_700),
    (5_452_596, Some(20_971_520), 15_518_924, 10_000),
    (0, Some(10), 4, 2_000),
    (0, Some(1_024), 1_023, 1_000),
    (0, Some(0), 0, 0),
    (0, Some(10), 0, 5_000),
    (0, None, 5_452_596, 1_000),
    (100, None, 0, 1_000),
    (
        18_446_744_073_709_551_615,
        Some(18_446_744_073_709_551_615),
        18_446_744_073_709_551_615,
        1,
    ),
];

/// Puts sizes and transfers, a line each.
pub(crate) fn put_all(alloc: Global, report: &mut Paper) {
    for count in SIZES {
        put_printed(alloc, &measured(unit_for(*count), *count), report);
        report.put(b"\n");
    }
    for (start, total, moved, millis) in TRANSFERS {
        let span = Span {
            start: *start,
            total: *total,
        };
        put_printed(alloc, &pace_of(span, *moved, *millis), report);
        report.put(b"\n");
    }
}
