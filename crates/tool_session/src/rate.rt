// How long a data connection waits before it moves more, so that no more than so many octets a second go over it.
ghost use Rattle.std.specs.Prelude.{◌≡◌};
ghost use Rattle.tool_session.specs.Rate.{due, pause_of, piece_of};

/// The longest wait in one piece, in milliseconds.
const LONGEST_MILLIS: u128 = 1_000;

/// For how many milliseconds nothing is moved, where so many octets went in so many milliseconds, of at most `rate` a second; 0: without a limit.
pub fn pause_of(rate: u64, moved: u64, millis: u64) -> u16
    // Witness: an equation; `edits/time_that_went_by_is_waited_for_again`.
    ensures { result ≡ pause_of rate moved millis }
{
    let left = due(rate, moved).saturating_sub(u128::from(millis));
    left.min(LONGEST_MILLIS) as u16
}

/// The milliseconds that so many octets take, rounded down.
fn due(rate: u64, moved: u64) -> u128
    ensures { result ≡ due rate moved }
{
    if rate == 0 {
        return 0;
    }
    u128::from(moved) * 1_000 / u128::from(rate)
}

/// The most octets that are moved at once: those of a quarter of a second, and one at least.
pub fn piece_of(rate: u64) -> u64
    // Witness: an equation; `edits/a_low_rate_moves_nothing`.
    ensures { result ≡ piece_of rate }
{
    if rate < 4 { 1 } else { rate / 4 }
}
