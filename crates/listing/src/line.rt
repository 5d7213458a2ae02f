//! The line of a command, written into a lent buffer from its start. What finds no room is left out, and the answer is
//! the length of the whole line.

ghost use Rattle.std.specs.Prelude.{◌+◌, ◌≤◌, ◌≡◌, length};
ghost use Rattle.std.proofs.lemmas.List.Edits.{sets};
ghost use Rattle.listing.specs.Parts.{answer_text, header_text};
ghost use Rattle.model.specs.Answers.{message_answer, shown_ptr, shown_value};
ghost use Rattle.model.specs.Listing.{result as result_text, command_line};
ghost use Rattle.listing.specs.Written.{Written};

use crate::text::{write_decimal, write_number, write_text, write_word};
use model::{Answer, Completed, Header, Message, Ptr};

// `ok`, `over`, or `no` with the number. The bounds here and below are no more than a line can come to: they keep an
// offset within 32 bits.
#[tactic(auto, using(crate::proofs::Texts::written_then), unfolding(model::specs::Listing::bytes))]
fn write_result(out: &mut [u8], at: u32, answer: Answer) -> usize
    requires { at ≤ 900 }
    ensures written { Written out.old out.new at (result_text (message_answer answer)) result }
    ensures upper_bound { result ≤ at + 22 }
{
    match answer {
        Ok(Completed::Done(_)) => write_text(out, at, b"ok"),
        Ok(Completed::Overflow(_)) => write_text(out, at, b"over"),
        Err(refusal) => {
            let at = write_text(out, at, b"no");
            write_decimal(out, at as u32, u8::from(refusal) as u64)
        }
    }
}

// The message that an answer shows; zeros where it shows none.
fn shown(answer: Answer) -> Message
    ensures ptr { result.ptr ≡ shown_ptr (message_answer answer) }
    ensures value { result.value ≡ shown_value (message_answer answer) }
{
    match answer {
        Ok(Completed::Done(message) | Completed::Overflow(message)) => message,
        Err(_) => Message {
            ptr: Ptr::NONE,
            value: 0,
        },
    }
}

// The answer of a command and what it shows, each after a space.
fn write_answer(out: &mut [u8], at: u32, answer: Answer) -> usize
    requires { at ≤ 100 }
    ensures written { Written out.old out.new at (answer_text (message_answer answer)) result }
    ensures upper_bound { result ≤ at + 90 }
{
    let message = shown(answer);
    let at = write_text(out, at, b" ");
    let at = write_result(out, at as u32, answer);
    let at = write_number(out, at as u32, message.ptr.index as u64);
    let at = write_number(out, at as u32, message.ptr.generation as u64);
    write_number(out, at as u32, message.value)
}

// The header, and the end of a command's line.
fn write_header(out: &mut [u8], at: u32, h: Header) -> usize
    requires { at ≤ 200 }
    ensures { Written out.old out.new at (header_text h) result }
{
    let at = write_number(out, at, h.len as u64);
    let at = write_number(out, at as u32, h.m as u64);
    let at = write_number(out, at as u32, h.root as u64);
    let at = write_number(out, at as u32, h.generation as u64);
    write_text(out, at as u32, b"\n")
}

// The line of a command: its word, the answer and what it shows, then the header.
pub(crate) fn write_command_line(out: &mut [u8], code: u8, answer: Answer, h: Header) -> usize
    ensures out_after { out.new ≡ sets out.old 0 (command_line code (message_answer answer) h) }
    ensures value { result ≡ length (command_line code (message_answer answer) h) }
{
    let at = write_word(out, code);
    let at = write_answer(out, at as u32, answer);
    write_header(out, at as u32, h)
}
