// The bar of one place: "Blank, OneSide, Agreed or Disagreed with its MWh (two figures for Disagreed, side 1 first)", and the number and the values of
// each case.
#![tactic(auto)]

ghost use Rattle.std.specs.Prelude.{◌≡◌};
ghost use Rattle.meaning.specs.Totals.{seen_by, mwh};
ghost use Rattle.setups.specs.Structs.{row_of};
ghost use Rattle.bar.specs.Figures.{case_of, first_of, second_of, bar_seen};

// A figure in MWh, seen from the asking account; two for Disagreed, side 1 first.
#[derive(Clone, Copy)]
pub enum Bar {
    Blank,
    OneSide(f64),
    Agreed(f64),
    Disagreed(f64, f64),
}

// ---- one place

// "seen from the asking account .., then made a 64-bit float and divided by 1000 once"
fn figure(row: setups::Authorisation, account: u8, v: i32) -> f64
    ensures { result ≡ mwh (seen_by (row_of row) account v) }
{
    figures::mwh(figures::seen_by(row, account, v))
}

// The bar of what the two sides hold for the pair of this authorisation, seen from the account.
pub fn bar_of(row: setups::Authorisation, account: u8, v: i32, w: i32) -> Bar
    ensures { result ≡ bar_seen (row_of row) account v w }
{
    if figures::is_matched(v, w) {
        return Bar::Agreed(figure(row, account, v));
    }
    match (ledger::states(v), ledger::states(w)) {
        (true, true) => Bar::Disagreed(figure(row, account, v), figure(row, account, w)),
        (true, false) => Bar::OneSide(figure(row, account, v)),
        (false, true) => Bar::OneSide(figure(row, account, w)),
        (false, false) => Bar::Blank,
    }
}

// ---- the number and the values of a case: three functions, each of its own definition, since C is given the three apart

pub fn case_of(bar: Bar) -> u8
    ensures { result ≡ case_of bar }
{
    match bar {
        Bar::Blank => 0,
        Bar::OneSide(_) => 1,
        Bar::Agreed(_) => 2,
        Bar::Disagreed(_, _) => 3,
    }
}

pub fn first_of(bar: Bar) -> f64
    ensures { result ≡ first_of bar }
{
    match bar {
        Bar::Blank => 0.0,
        Bar::OneSide(x) | Bar::Agreed(x) | Bar::Disagreed(x, _) => x,
    }
}

pub fn second_of(bar: Bar) -> f64
    ensures { result ≡ second_of bar }
{
    match bar {
        Bar::Blank | Bar::OneSide(_) | Bar::Agreed(_) => 0.0,
        Bar::Disagreed(_, y) => y,
    }
}
