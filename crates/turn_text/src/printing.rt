// The text that is printed, line by line.
ghost use Rattle.std.specs.Prelude.{◌≡◌, ◌++◌, ◌+◌, ◌≤◌, [], length};
ghost use Rattle.arrayvec.specs.ArrayString.{array_string_len};
ghost use Rattle.turn_text.specs.Text.{ascii, decimal, octal, line, reason_name, register_lines, one_letter};
ghost use Rattle.turn_text.specs.Text.{end_text, text_of};

use crate::End;
use arrayvec::ArrayString;
use isa::answer::{Reason, Refusal};
use isa::machine::File;
use itoa::Buffer;

// The bytes that the longest text has.
pub const LONGEST_TEXT: usize = 144;

pub type Text = ArrayString<LONGEST_TEXT>;

// A name, a space, a value and the line's end.
#[tactic(auto, unfolding(crate::specs::Text::line))]
fn push_line(text: &mut Text, name: &str, value: &str)
    requires { array_string_len text.old + length name.now + length value.now + 2 ≤ LONGEST_TEXT }
    ensures bytes { text.new.bytes ≡ text.old.bytes ++ line name.now value.now }
    ensures len { array_string_len text.new ≡ array_string_len text.old + length name.now + length value.now + 2 }
{
    text.push_str(name);
    text.push_str(" ");
    text.push_str(value);
    text.push_str("\n");
}

// A number in decimal.
#[tactic(auto, using(crate::proofs::Laws::decimal_digits))]
fn push_number(text: &mut Text, name: &str, number: u64)
    requires { array_string_len text.old + length name.now + 22 ≤ LONGEST_TEXT }
    ensures bytes { text.new.bytes ≡ text.old.bytes ++ line name.now (decimal number) }
    ensures bound { array_string_len text.new ≤ array_string_len text.old + length name.now + 22 }
{
    let mut digits = Buffer::new();
    push_line(text, name, digits.format(number));
}

// A word in octal, six digits.
#[tactic(auto, using(crate::proofs::Laws::octal_utf8))]
fn octal_digits(word: u16) -> ArrayString<6>
    ensures { result.bytes ≡ octal word }
{
    let digits = [
        b'0' + (word / 0o100000) as u8,
        b'0' + (word / 0o10000 % 8) as u8,
        b'0' + (word / 0o1000 % 8) as u8,
        b'0' + (word / 0o100 % 8) as u8,
        b'0' + (word / 0o10 % 8) as u8,
        b'0' + (word % 8) as u8,
    ];
    ArrayString::from_byte_string(&digits).unwrap()
}

fn push_register(text: &mut Text, name: &str, word: u16)
    requires { array_string_len text.old + length name.now + 8 ≤ LONGEST_TEXT }
    ensures bytes { text.new.bytes ≡ text.old.bytes ++ line name.now (octal word) }
    ensures len { array_string_len text.new ≡ array_string_len text.old + length name.now + 8 }
{
    push_line(text, name, &octal_digits(word));
}

fn reason_name(reason: Reason) -> &'static str
    ensures value { result.now ≡ reason_name reason }
    ensures bound { length result.now ≤ 9 }
{
    match reason {
        Reason::Stopped => "stopped",
        Reason::Level => "level",
        Reason::Spent => "spent",
        Reason::Interrupt => "interrupt",
    }
}

// The registers with a name of one letter.
fn push_registers(text: &mut Text, file: File)
    requires { array_string_len text.old + 63 ≤ LONGEST_TEXT }
    ensures { text.new.bytes ≡ text.old.bytes ++ register_lines (ascii "DPBLATX") (one_letter file) }
{
    push_register(text, "D", file.d);
    push_register(text, "P", file.p);
    push_register(text, "B", file.b);
    push_register(text, "L", file.l);
    push_register(text, "A", file.a);
    push_register(text, "T", file.t);
    push_register(text, "X", file.x);
}

fn push_end(text: &mut Text, end: End)
    requires { text.old.bytes ≡ [] }
    ensures { text.new.bytes ≡ end_text end }
{
    push_line(text, "ended", reason_name(end.reason));
    push_number(text, "steps", end.steps);
    push_number(text, "level", u64::from(end.level));
    push_register(text, "STS", end.file.sts);
    push_registers(text, end.file);
}

// What is printed.
pub fn text_of(turned: Result<End, Refusal>) -> Text
    ensures { result.bytes ≡ text_of turned }
{
    let mut text = Text::new();
    match turned {
        Ok(end) => push_end(&mut text, end),
        Err(refusal) => push_number(&mut text, "refused", u64::from(u16::from(refusal))),
    }
    text
}
