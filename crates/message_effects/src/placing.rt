// Document 02, A1: a notification's volumes, placed on the periods of the book's days. They are laid out once for each length that a day of the book has,
// a row of places a length, so that the open places of a day are one run of its row.
ghost use Rattle.std.specs.Prelude.{◌≡◌, length};
ghost use Rattle.clock.specs.Structs.{time_of};
ghost use Rattle.message_effects.specs.Placing.{some_day_has, periods_kept, laid_from, row_laid, laid_out, RowInside};

// A row for each of the three lengths.
pub(crate) const LAID_OUT: usize = 3 * limits::PLACES_A_DAY;

// Some day of the book has so many periods.
fn some_day_has(c: clock::Clock, periods: u8) -> bool
    ensures { result ≡ some_day_has (time_of c) periods }
{
    (0..c.days).any(|d| clock::periods_at(c, d) == periods)
}

// How many of a day's periods, from the first on, show the notification's period of the same number.
fn periods_kept(single: bool, periods: u8) -> u8
    ensures { result ≡ periods_kept single periods }
{
    if single {
        return periods;
    }
    if periods == limits::SHORT_DAY {
        return limits::KEPT_ON_A_SHORT_DAY;
    }
    if periods == limits::LONG_DAY {
        return limits::KEPT_ON_A_LONG_DAY;
    }
    periods
}

// The first place of a length's row.
pub(crate) fn laid_from(periods: u8) -> usize
    ensures { result ≡ laid_from periods }
{
    if periods == limits::SHORT_DAY {
        return 0;
    }
    if periods == limits::PLAIN_DAY {
        return limits::PLACES_A_DAY;
    }
    2 * limits::PLACES_A_DAY
}

// A length's row. The periods after those that keep their number are the last of the notification's 48: their distance to the day's end is kept.
fn lay_row(laid: &mut [i32], volumes: &[i32], c: clock::Clock, single: bool, periods: u8)
    requires { RowInside periods (length volumes.now) }
    ensures { laid.new ≡ row_laid (time_of c) single volumes.now periods laid.old }
{
    if !some_day_has(c, periods) {
        return;
    }
    let row = laid_from(periods);
    let kept = periods_kept(single, periods) as usize;
    let moved = periods as usize - kept;
    let last = limits::PLAIN_DAY as usize;
    ledger::store_run(laid, row, &volumes[0..kept]);
    ledger::store_run(laid, row + kept, &volumes[last - moved..last]);
}

// A notification's volumes on the days of the book. The row of a length that no day has is zero.
pub(crate) fn laid_out(c: clock::Clock, single: bool, volumes: &[i32]) -> [i32; LAID_OUT]
    requires { length volumes.now ≡ 50 }
    ensures { result ≡ laid_out (time_of c) single volumes.now }
{
    let mut laid: [i32; LAID_OUT] = [0; LAID_OUT];
    lay_row(&mut laid, volumes, c, single, limits::SHORT_DAY);
    lay_row(&mut laid, volumes, c, single, limits::PLAIN_DAY);
    lay_row(&mut laid, volumes, c, single, limits::LONG_DAY);
    laid
}
