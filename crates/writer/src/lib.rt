// Image to pack text, in one form or the other.
#![tactic(auto)]

ghost use Rattle.std.specs.Prelude.{◌≡◌, length};
ghost use Rattle.numbers.specs.Front.{Delivers, buffer_after};
ghost use Rattle.pack.specs.Laid.{Sized};
ghost use Rattle.text.specs.declared.Form.TheVariants.{One, Two};
ghost use Rattle.text.specs.Writer.{text_of, write_good, write};

use numbers::{Answer, WrongWord};
use putfields::{Buffer, Counter};
use putlines::write_text;
use text::Form;

// The bytes of the text of an image.
fn text_size(img: &[u16], form: Form) -> usize
    requires { Sized img.now }
    ensures { result ≡ length (text_of form img.now) }
{
    write_text::<Counter>(&mut [], 0, img, form)
}

// The text of an image of good shape: its length first, by a walk that counts, and then its bytes.
pub fn write_good(img: &[u16], buffer: &mut [u8], form: Form) -> Answer
    requires { Sized img.now }
    ensures { Delivers (write_good form img.now (length buffer.old)) buffer.old buffer.new result }
{
    let size = text_size(img, form);
    if numbers::LONGEST_TEXT < size {
        return Answer {
            code: numbers::TEXT_TOO_LONG,
            number: 0,
        };
    }
    if buffer.len() < size {
        return Answer {
            code: numbers::ROOM_TOO_SMALL,
            number: size,
        };
    }
    let end = write_text::<Buffer>(buffer, 0, img, form);
    Answer {
        code: numbers::DONE,
        number: end,
    }
}

// An image in this form.
fn write_in(img: &[u16], buffer: &mut [u8], form: Form) -> Answer
    ensures value { result ≡ (write form img.now buffer.old).answer }
    ensures buffer_after { buffer.new ≡ buffer_after buffer.old (write form img.now buffer.old) }
{
    match shape::shape(img) {
        Err(WrongWord(place)) => Answer {
            code: numbers::WRONG_SHAPE,
            number: place,
        },
        Ok(()) => write_good(img, buffer, form),
    }
}

// Writes an image as pack text of form 1. Codes 4, 2 and 3 leave the buffer untouched; done puts the bytes of the text at its front.
pub fn write(img: &[u16], buffer: &mut [u8]) -> Answer
    ensures value { result ≡ (write One img.now buffer.old).answer }
    ensures buffer_after { buffer.new ≡ buffer_after buffer.old (write One img.now buffer.old) }
{
    write_in(img, buffer, Form::One)
}

// Writes an image as pack text of form 2, in the same way.
pub fn write2(img: &[u16], buffer: &mut [u8]) -> Answer
    ensures value { result ≡ (write Two img.now buffer.old).answer }
    ensures buffer_after { buffer.new ≡ buffer_after buffer.old (write Two img.now buffer.old) }
{
    write_in(img, buffer, Form::Two)
}
