// How a reply line is written: byte by byte into the buffer of the reply. As `Display` through a `Formatter`, and by way of
// an `ArrayVec`, a reply took about four times as long. The buffer and the place in it stay two parameters: a struct of the
// two would hold the loan of the buffer, which each clause would have to name as well.
ghost use Rattle.std.specs.Prelude.{◌≡◌, ◌+◌, ◌<◌, ◌≤◌, [], ◌∷◌, length, decimal};
ghost use Rattle.session.specs.Replies.{Spelt, answer_line, call_letter, field_text, layer_letter, refusal_line, reply_line, verdict_letter};
ghost use Rattle.text.specs.Writes.{Puts};

use super::Field;
use crate::turns::{Answer, REPLY_ROOM};
use itoa::write_digits;
use plan::refusals::{Layer, Refusal};
use plan::verdicts::Verdict;
use stand::records::{Call, Reply};

// Writes a byte at a place, and says the place after it.
fn put_byte(out: &mut [u8], at: usize, byte: u8) -> usize
    requires { at < length out.old }
    ensures { Puts out.old out.new at (byte ∷ []) result }
{
    out[at] = byte;
    at + 1
}

// Writes a number in decimal digits at a place, and says the place after it. Most have one digit or two: by the library
// alone a whole line took an eighth longer, and the program lost to one in plain Rust.
#[inline(never)]
fn put_digits(out: &mut [u8], at: usize, n: u32) -> usize
    requires { at + length (decimal n) ≤ length out.old }
    ensures { Puts out.old out.new at (decimal n) result }
{
    if 10 <= n && n < 100 {
        let units = put_byte(out, at, b'0' + (n / 10) as u8);
        return put_byte(out, units, b'0' + (n % 10) as u8);
    }
    let mut digits = [0; 10];
    let start = write_digits(u64::from(n), &mut digits, 10);
    let digits = &digits[start..];
    let end = at + digits.len();
    out[at..end].copy_from_slice(digits);
    end
}

// The same, with no call for a number of one digit.
fn put_number(out: &mut [u8], at: usize, n: u32) -> usize
    requires { at + length (decimal n) ≤ length out.old }
    ensures { Puts out.old out.new at (decimal n) result }
{
    if n < 10 {
        return put_byte(out, at, b'0' + n as u8);
    }
    put_digits(out, at, n)
}

// Writes a space and a field at a place, and says the place after it.
fn put_field(out: &mut [u8], at: usize, field: &Field) -> usize
    requires { at + 11 ≤ length out.old }
    ensures puts { Puts out.old out.new at (32 ∷ field_text field.now) result }
    ensures short { length (field_text field.now) ≤ 10 }
{
    let at = put_byte(out, at, b' ');
    match field {
        Field::Count(n) => put_number(out, at, *n),
        Field::Letter(b) => put_byte(out, at, *b),
    }
}

// A letter is a byte of the reply lines, and no other form of what it stands for: as a `From` it would be no plainer.
fn verdict_letter(verdict: Option<Verdict>) -> u8
    ensures { result ≡ verdict_letter verdict }
{
    match verdict {
        None => b'-',
        Some(Verdict::Accept) => b'A',
        Some(Verdict::Reject) => b'R',
    }
}

fn call_letter(call: Call) -> u8
    ensures { result ≡ call_letter call }
{
    match call {
        Call::Open(_) => b'O',
        Call::Take(_, _) => b'I',
        Call::Read(_) => b'R',
        Call::Clear(_) => b'X',
    }
}

fn layer_letter(layer: Layer) -> u8
    ensures { result ≡ layer_letter layer }
{
    match layer {
        Layer::Bay => b'B',
        Layer::Number => b'N',
        Layer::Text => b'T',
        Layer::Memory => b'M',
        Layer::Sheet => b'H',
    }
}

// Writes a letter, fields and a line feed, and says how long that is.
fn spell(out: &mut [u8; REPLY_ROOM], letter: u8, fields: &[Field]) -> usize
    requires { length fields.now ≤ 8 }
    ensures { Spelt (reply_line letter fields.now) out.old out.new result }
{
    let mut at = put_byte(out, 0, letter);
    for field in fields {
        at = put_field(out, at, field);
    }
    put_byte(out, at, b'\n')
}

// Writes the reply to a command that is not refused.
pub fn spell_answer(out: &mut [u8; REPLY_ROOM], answer: Answer) -> usize
    ensures { Spelt (answer_line answer) out.old out.new result }
{
    match answer {
        Answer::Planned(last_size) => spell(out, b'P', &[Field::Count(last_size)]),
        Answer::Served(call, Reply::Opened(bay)) => spell(
            out,
            call_letter(call),
            &[Field::Count(bay)],
        ),
        Answer::Served(call, Reply::Lot(lot)) => spell(
            out,
            call_letter(call),
            &[
                Field::Count(call.bay()),
                Field::Count(lot.size),
                Field::Count(lot.count),
                Field::Letter(verdict_letter(lot.verdict)),
            ],
        ),
    }
}

// Writes the reply to a refused line.
pub fn spell_refusal(out: &mut [u8; REPLY_ROOM], refusal: Refusal, line: u32) -> usize
    ensures { Spelt (refusal_line refusal line) out.old out.new result }
{
    spell(
        out,
        b'!',
        &[
            Field::Count(refusal.cause),
            Field::Letter(layer_letter(refusal.layer)),
            Field::Count(refusal.place),
            Field::Count(line),
        ],
    )
}
