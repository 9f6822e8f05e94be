// The lines of the accounts' days: "non-zero totals only", rising by account, day and period.
ghost use Rattle.std.specs.Prelude.{◌≡◌, ◌*◌, ◌≤◌, length};
ghost use Rattle.book.specs.Structs.{book_seen};
ghost use Rattle.sheet_lines.specs.Places.{PutsAll};
ghost use Rattle.meaning.specs.Sheet.{period_lines, day_lines};
ghost use Rattle.sheet_parts.specs.Parts.{kwh_lines};
ghost use Rattle.sheet_parts.specs.Promises.{PutsAccountDay};

use book::{Book, BookView};

// A line for a total that is not zero, and the place after it. The buffer and the place are two parameters, as in decimals.
fn put_total(out: &mut [u8], at: usize, account: u8, day: u16, period: u8, kwh: i64) -> usize
    ensures { PutsAll (period_lines account day period kwh) out.old at out.new result }
{
    if kwh == 0 {
        return at;
    }
    sheet_lines::put_total_line(out, at, account, day, period, kwh)
}

// A line for each of a day's totals that is not zero, the first of which is that of period 1.
fn put_totals(out: &mut [u8], account: u8, day: u16, kwh: &[i64]) -> usize
    requires { length kwh.now ≤ 50 }
    ensures { PutsAll (kwh_lines account day kwh.now) out.old 0 out.new result }
{
    let mut place = 0;
    for (p, total) in kwh.iter().enumerate() {
        place = put_total(out, place, account, day, p as u8 + 1, *total);
    }
    place
}

// The lines of an account's day, from the front of the buffer on, and the place after them. A question that is refused leaves the totals zero.
fn put_day(view: BookView<'_>, account: u8, day: u16, out: &mut [u8]) -> usize
    ensures { PutsAll (day_lines (book_seen view.entry) account day) out.old 0 out.new result }
{
    let mut kwh = [0i64; limits::PLACES_A_DAY];
    let _ = position::totals::day_totals(view, account, day, &mut kwh);
    put_totals(out, account, day, &kwh)
}

// How many accounts' days there are: every account has every day.
pub fn account_days(b: Book) -> u16
    ensures { result ≡ b.setup.accounts * b.setup.days }
{
    b.setup.accounts as u16 * b.setup.days as u16
}

// The lines of the k-th account's day, from the front of the buffer on, and the place after them: account 0 on each day comes first, then account 1.
// No sound book reaches the end of the day numbers, where the sum wraps.
pub fn put_account_day(view: BookView<'_>, k: u16, out: &mut [u8]) -> usize
    ensures { let v = view.entry in
        PutsAccountDay v.book v.held.now v.side1.now v.side2.now k out.old out.new result }
{
    if account_days(view.book) <= k {
        return 0;
    }
    let days = view.book.setup.days as u16;
    let account = (k / days) as u8;
    let day = view.book.setup.first.wrapping_add(k % days);
    put_day(view, account, day, out)
}
