// When orders are done.
ghost use Rattle.std.specs.Prelude.{◌≡◌, ◌+◌, ◌<◌, IfNone, IfSome};

use ftp_facts::Moment;

/// The moment of the first order, in seconds from the start of 1970 (own choice).
const YEAR_2000: u64 = 946_684_800;

/// The moment of the order with this number, from 0: each has the second after that of the order before it. None after the year 9999.
pub fn moment_of(number: u64) -> Option<Moment>
    // Witness: an equation, where there is one; none past the year 9999 alone.
    ensures some { IfSome result (λ moment. moment.seconds ≡ 946684800 + number) }
    ensures none { IfNone result (253_402_300_799 < 946684800 + number) }
{
    let Some(seconds) = YEAR_2000.checked_add(number) else {
        return None;
    };
    Moment::new(seconds)
}
