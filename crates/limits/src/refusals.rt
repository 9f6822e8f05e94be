// Why a request is refused: document 01, "Answer numbers", in its order, and document 02's after them. docs/ANSWERS.md leads from each to its rule. C is
// given the number; 0 is done.
ghost use Rattle.std.specs.Prelude.{◌≡◌};
ghost use Rattle.limits.specs.Refusals.{number_of, answer_of};

#[derive(Clone, Copy, PartialEq, Eq)]
pub enum Refusal {
    NotSound = 1,
    EveryGateClosed = 2,
    NoAuthorisation = 3,
    KeyOrAgentWrong = 4,
    NotInForce = 5,
    OriginatorWrong = 6,
    LastBeforeFirst = 7,
    LastDayPast = 8,
    FirstDayAfterBook = 9,
    PeriodWrong = 10,
    VolumeWrong = 11,
    ReplacementNotAllowed = 12,
    AdditionalNotAllowed = 13,
    NoSlot = 14,
    // Not in the book, not in the pair, or the two equal.
    NoSuchAccount = 15,
    // Day number, period or side.
    NoSuchDay = 16,
    SetupWrong = 17,
    RowWrong = 18,
    BytesEndTooSoon = 19,
    KindThree = 20,
    TooManyEntries = 21,
    PaddingBit = 22,
    // A value, a kind too, or more than 50 entries to write.
    ValueDoesNotFit = 23,
    NoRoom = 24,
    NotHeld = 25,
    TotalTooLarge = 26,
    // Document 02, A2: a day or a date that is not in 2000 to 2099.
    NotInCalendar = 27,
    // A day's code in a setup is not the calendar's.
    CodeDisagrees = 28,
    // Document 02, A5: a spreadsheet that is not well-formed CSV.
    NotCsv = 29,
    // A wrong header or field count, empty input included.
    NotTwoFields = 30,
    // A field that is not a period or not a number of MWh, as document 02 writes them.
    NotANumber = 31,
    // More than 50 entries.
    TooManyRecords = 32,
}

impl From<Refusal> for u8 {
    ghost from_gives = { λ refusal number. number ≡ number_of refusal };

    fn from(refusal: Refusal) -> u8 {
        refusal as u8
    }
}

// The answer number of what may be refused and gives nothing: 0 where it is done.
pub fn answer_of(outcome: Result<(), Refusal>) -> u8
    ensures { result ≡ answer_of outcome }
{
    match outcome {
        Ok(()) => 0,
        Err(refusal) => refusal.into(),
    }
}
