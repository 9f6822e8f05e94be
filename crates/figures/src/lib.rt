// What a volume is for an account: "Matching, totals, marks" of one place (meaning, Totals.antt). Totals and bars both take these rules from here.
#![tactic(auto)]

ghost use Rattle.std.specs.Prelude.{◌≡◌};
ghost use Rattle.meaning.specs.Authorisations.{in_pair};
ghost use Rattle.meaning.specs.Totals.{matches, seen_by, mwh};
ghost use Rattle.setups.specs.Structs.{row_of};

const KWH_A_MWH: f64 = 1000.0;

// "A period matches when both sides stand and are equal."
pub fn is_matched(v: i32, w: i32) -> bool
    ensures { result ≡ matches v w }
{
    ledger::states(v) & ledger::states(w) & (v == w)
}

// The account is one of the pair's two; no other sees anything of it.
pub fn in_pair(row: setups::Authorisation, account: u8) -> bool
    ensures { result ≡ in_pair (row_of row) account }
{
    (account == row.account1) | (account == row.account2)
}

// "kWh as they stand for account 1, negated as a whole number for account 2"; nothing for any other.
pub fn seen_by(row: setups::Authorisation, account: u8, v: i32) -> i64
    ensures { result ≡ seen_by (row_of row) account v }
{
    if account == row.account1 {
        return v as i64;
    }
    if account == row.account2 {
        return -(v as i64);
    }
    0
}

// "made a 64-bit float and divided by 1000 once". Up to 2 ^ 53 either way, farther than the sums of a book go, the float is the very number
// (`converted-exactly`, proofs/MwhLaws.antt).
pub fn mwh(kwh: i64) -> f64
    ensures { result ≡ mwh kwh }
{
    std::num::nearest_i64_to_f64(kwh) / KWH_A_MWH
}
