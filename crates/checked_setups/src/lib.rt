// A setup checked against the calendar on request (document 02, A2): 27, then 28, after 18 and before 22. The unchecked ways ask no calendar.
#![tactic(auto)]

mod codes; // codes.rt: the days and codes of a setup against the calendar
pub mod opening; // opening.rt: a book from a setup by value, checked
pub mod reading; // reading.rt: a packed setup, checked, and a book from it
