// Setups checked against the calendar, from C (document 02, A2): reading one, and opening a book by struct or from packed bytes.
ghost use Rattle.std.specs.Prelude.{◌≡◌, length};
ghost use Rattle.words.specs.Rules.{answer};
ghost use Rattle.setups.specs.Structs.{setup_of};
ghost use Rattle.setup_reading.specs.Structs.{setup_read};
ghost use Rattle.book.specs.Answers.{opened, opened_packed, held_opened, side_opened};
ghost use Rattle.checked_setups.specs.Checked.{checked_opening_rules, read_checked_setup};

#[unsafe(no_mangle)]
pub extern "C" fn ghendufika_read_setup_checked(
    bytes: &[u8],
    slots: usize,
    lent1: usize,
    lent2: usize,
) -> setup_reading::SetupRead
    ensures { result ≡ setup_read (read_checked_setup bytes.now slots lent1 lent2) }
{
    checked_setups::reading::read_setup_checked(bytes, slots, lent1, lent2).into()
}

#[unsafe(no_mangle)]
pub extern "C" fn ghendufika_open_checked(
    s: setups::Setup,
    held: &mut [u32],
    side1: &mut [i32],
    side2: &mut [i32],
) -> book::Opened
    ensures { let a = answer (checked_opening_rules (setup_of s) (length held.old) (length side1.old) (length side2.old)) in
        (result ≡ opened s a) × (held.new ≡ held_opened a held.old) × (side1.new ≡ side_opened a side1.old) × (side2.new ≡ side_opened a side2.old) }
{
    checked_setups::opening::open_checked(s, held, side1, side2).into()
}

#[unsafe(no_mangle)]
pub extern "C" fn ghendufika_open_packed_checked(
    bytes: &[u8],
    held: &mut [u32],
    side1: &mut [i32],
    side2: &mut [i32],
) -> book::OpenedPacked
    ensures { let read = read_checked_setup bytes.now (length held.old) (length side1.old) (length side2.old) in
        (result ≡ opened_packed read) × (held.new ≡ held_opened read.answer held.old) × (side1.new ≡ side_opened read.answer side1.old) × (side2.new ≡ side_opened read.answer side2.old) }
{
    checked_setups::reading::open_packed_checked(bytes, held, side1, side2).into()
}
