// Pack text to image.
#![tactic(auto)]

ghost use Rattle.std.specs.Prelude.{◌≡◌, [], ◌-◌, ◌≤◌, length};
ghost use Rattle.numbers.specs.Codes.{not_the_form};
ghost use Rattle.numbers.specs.Front.{deliver, Delivers, buffer_after};
ghost use Rattle.pack.specs.Image.{largest_image, needed};
ghost use Rattle.text.specs.Reader.{read_head, read_in, judge, read};
ghost use Rattle.text.specs.Reader.Lines.{all};

use numbers::{Answer, WrongWord};
use pack::image::{HEAD_WORDS, LARGEST_IMAGE};
use readlines::WrongLine;
use text::Form;

mod tables; // tables.rt: the first two lines, the tables, and what stands behind the head

// The scratch image is cleared for each call, so there are three sizes of it, and the sizes in the head say which one is enough.
const SMALL_IMAGE: usize = 512;

const MIDDLE_IMAGE: usize = 4096;

// A text with a wrong line: the place is its start.
fn refused(text: &[u8], wrong: WrongLine<'_>) -> Answer
    requires { length wrong.from.now ≤ length text.now }
    ensures { result ≡ record { code = not_the_form; number = length text.now - length wrong.entry.from.now } }
{
    Answer {
        code: numbers::NOT_THE_FORM,
        number: text.len() - wrong.from.len(),
    }
}

// Words that were read: they must have good shape, and there must be room.
fn judge(img: &[u16], buffer: &mut [u16]) -> Answer
    ensures { Delivers (judge 0 (λ w. deliver w (length buffer.old)) (all img.now [])) buffer.old buffer.new result }
{
    match shape::shape(img) {
        Err(WrongWord(place)) => Answer {
            code: numbers::WRONG_SHAPE,
            number: place,
        },
        Ok(()) => numbers::deliver(img, buffer),
    }
}

// A text whose head is right, with the bytes behind it, read by way of a scratch image that has room for its words.
fn read_by<const N: usize>(
    text: &[u8],
    form: Form,
    head: &[u16],
    rest: &[u8],
    buffer: &mut [u16],
) -> Answer
    requires nine { length head.now ≡ 9 }
    requires head_read { (read_head form text.now ≡ all head.now rest.now) × (length rest.now ≤ length text.now) }
    requires room { (needed head.now ≤ N) × (N ≤ largest_image) }
    ensures { Delivers (judge (length text.now) (λ w. deliver w (length buffer.old)) (read_in form text.now)) buffer.old buffer.new result }
{
    let mut img = [0u16; N];
    let size = pack::image::needed(head);
    if let Err(wrong) = tables::read_rest(rest, form, head, &mut img[..size]) {
        return refused(text, wrong);
    }
    judge(&img[..size], buffer)
}

// Reads a pack text of either form. Codes 2, 1, 4 and 3 leave the buffer untouched; done puts the words of the image at its front.
pub fn read(text: &[u8], buffer: &mut [u16]) -> Answer
    ensures value { result ≡ (read text.now buffer.old).answer }
    ensures buffer_after { buffer.new ≡ buffer_after buffer.old (read text.now buffer.old) }
{
    if numbers::LONGEST_TEXT < text.len() {
        return Answer {
            code: numbers::TEXT_TOO_LONG,
            number: 0,
        };
    }
    let form = firstline::form_of(text);
    let mut head = [0u16; HEAD_WORDS];
    match tables::read_head(text, form, &mut head) {
        Err(wrong) => refused(text, wrong),
        Ok(rest) => {
            let size = pack::image::needed(&head);
            if size <= SMALL_IMAGE {
                return read_by::<SMALL_IMAGE>(text, form, &head, rest, buffer);
            }
            if size <= MIDDLE_IMAGE {
                return read_by::<MIDDLE_IMAGE>(text, form, &head, rest, buffer);
            }
            read_by::<LARGEST_IMAGE>(text, form, &head, rest, buffer)
        }
    }
}
