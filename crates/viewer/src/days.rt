// The calendar from C (document 02, A2). Each export calls, and gives C the struct of the outcome; its promise is that of the function it calls.
ghost use Rattle.std.specs.Prelude.{◌≡◌};
ghost use Rattle.calendar.specs.Answers.{measured, coded, date_of, numbered, dated, proposed};

#[unsafe(no_mangle)]
pub extern "C" fn ghendufika_day_length(day: u32) -> calendar::Measured
    ensures { result ≡ measured day }
{
    calendar::lengths::day_length(day).into()
}

#[unsafe(no_mangle)]
pub extern "C" fn ghendufika_code_of_day(day: u32) -> calendar::Coded
    ensures { result ≡ coded day }
{
    calendar::lengths::code_of_day(day).into()
}

#[unsafe(no_mangle)]
pub extern "C" fn ghendufika_day_of_date(year: u32, month: u32, day: u32) -> calendar::Numbered
    ensures { result ≡ numbered (date_of year month day) }
{
    calendar::dates::day_of_date(year, month, day).into()
}

#[unsafe(no_mangle)]
pub extern "C" fn ghendufika_date_of_day(day: u32) -> calendar::Dated
    ensures { result ≡ dated day }
{
    calendar::dates::date_of_day(day).into()
}

#[unsafe(no_mangle)]
pub extern "C" fn ghendufika_propose_codes(first: u32, days: u32) -> calendar::Proposed
    ensures { result ≡ proposed first days }
{
    calendar::proposals::propose_codes(first, days).into()
}
