// Packed bytes from C: a message by value out of bytes and into them, a setup into bytes, and a book opened from them. On a refusal a
// function gives what its struct has for one.
ghost use Rattle.std.specs.Prelude.{◌≡◌, length};
ghost use Rattle.meaning.specs.PackedMessages.{read_message, write_message};
ghost use Rattle.meaning.specs.PackedSetups.{read_setup, write_setup};
ghost use Rattle.messages.specs.Structs.{message_of};
ghost use Rattle.message_reading.specs.Structs.{message_read};
ghost use Rattle.message_writing.specs.Structs.{message_written};
ghost use Rattle.setups.specs.Structs.{setup_of};
ghost use Rattle.setup_writing.specs.Structs.{setup_written};
ghost use Rattle.book.specs.Answers.{opened_packed, held_opened, side_opened};

#[unsafe(no_mangle)]
pub extern "C" fn ghendufika_read_message(bytes: &[u8]) -> message_reading::MessageRead
    ensures { result ≡ message_read (read_message bytes.now) }
{
    message_reading::read_message(bytes).into()
}

#[unsafe(no_mangle)]
pub extern "C" fn ghendufika_write_message(
    m: messages::Message,
    out: &mut [u8],
) -> fields::WrittenBytes
    ensures { (result ≡ message_written (write_message (message_of m) out.old)) × (out.new ≡ (write_message (message_of m) out.old).out) }
{
    message_writing::write_message(m, out).into()
}

#[unsafe(no_mangle)]
pub extern "C" fn ghendufika_write_setup(s: setups::Setup, out: &mut [u8]) -> fields::WrittenBytes
    ensures { (result ≡ setup_written (write_setup (setup_of s) out.old)) × (out.new ≡ (write_setup (setup_of s) out.old).out) }
{
    setup_writing::write_setup(s, out).into()
}

#[unsafe(no_mangle)]
pub extern "C" fn ghendufika_open_packed(
    bytes: &[u8],
    held: &mut [u32],
    side1: &mut [i32],
    side2: &mut [i32],
) -> book::OpenedPacked
    ensures { let read = read_setup bytes.now (length held.old) (length side1.old) (length side2.old) in
        (result ≡ opened_packed read) × (held.new ≡ held_opened read.answer held.old) × (side1.new ≡ side_opened read.answer side1.old) × (side2.new ≡ side_opened read.answer side2.old) }
{
    book::opening::open_packed(bytes, held, side1, side2).into()
}
