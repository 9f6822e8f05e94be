// The limits of document 01, and A1's and A5's of document 02, each once and by name; refusals and kinds beside them. A name in _WIDE is the same limit in a wider type.
#![tactic(auto)]

pub mod refusals; // refusals.rt: why a request is refused, and the number that C is given
pub mod kinds; // kinds.rt: the numbers of kinds and types

// "A book covers 1 to 8 consecutive settlement days"
pub const MOST_DAYS: u8 = 8;

pub const MOST_DAYS_WIDE: usize = MOST_DAYS as usize;

// "of 46, 48 or 50 periods"
pub const SHORT_DAY: u8 = 46;

pub const PLAIN_DAY: u8 = 48;

pub const LONG_DAY: u8 = 50;

// Of a notification of several days, on a 46-period day 1 and 2 keep their number ("must drop its periods 3 and 4"), and on a 50-period day "1 to 4
// stay" (02, A1).
pub const KEPT_ON_A_SHORT_DAY: u8 = 2;

pub const KEPT_ON_A_LONG_DAY: u8 = 4;

// "slots times days times 50 volumes": every day has the places of a long one.
pub const PLACES_A_DAY: usize = LONG_DAY as usize;

// "2 to 64 energy accounts"
pub const FEWEST_ACCOUNTS: u8 = 2;

pub const MOST_ACCOUNTS: u8 = 64;

// "1 to 64 authorisations"
pub const MOST_AUTHORISATIONS: u8 = 64;

pub const MOST_AUTHORISATIONS_WIDE: usize = MOST_AUTHORISATIONS as usize;

// "and 1 to 256 identifiers", a slot each
pub const MOST_SLOTS: usize = 256;

// "65,535 as an end day means evergreen (no end) and is never a start that can be accepted": day numbers end before it.
pub const EVERGREEN: u16 = 65535;

// "Volumes are whole kWh, from -99,999,999 to 99,999,999"
pub const MOST_KWH: i32 = 99999999;

pub const LEAST_KWH: i32 = -MOST_KWH;

// "an account total beyond 99,999,999,999 either way"
pub const MOST_TOTAL: i64 = 99999999999;

pub const LEAST_TOTAL: i64 = -MOST_TOTAL;

// "more than 50 entries"
pub const MOST_ENTRIES: u8 = 50;

pub const MOST_ENTRIES_WIDE: usize = MOST_ENTRIES as usize;

// "Periods above 99 .. give 23" (02, A5): a spreadsheet has no higher period.
pub const MOST_SPREADSHEET_PERIOD: u8 = 99;
