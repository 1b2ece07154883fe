// A pack text moved from one form to the other: it is read as an image, and the image is written.
#![tactic(auto)]

ghost use Rattle.std.specs.Prelude.{◌≡◌, ◌≤◌, length};
ghost use Rattle.numbers.specs.Codes.{longest_text};
ghost use Rattle.numbers.specs.Front.{Delivers, buffer_after};
ghost use Rattle.pack.specs.Image.{largest_image};
ghost use Rattle.text.specs.declared.Form.TheVariants.{One, Two};
ghost use Rattle.text.specs.Reader.{read_all, judge};
ghost use Rattle.text.specs.Reform.{reform};
ghost use Rattle.text.specs.Writer.{write_good};
ghost use Rattle.moves.specs.Forms.{other};

use numbers::Answer;
use text::Form;

// A text in the form that its first line tells, written in another, by way of a scratch image that has room for any: the reader gives no 3.
fn rewrite_by(text: &[u8], img: &mut [u16], buffer: &mut [u8], to: Form) -> Answer
    requires { (length text.now ≤ longest_text) × (largest_image ≤ length img.old) }
    ensures { Delivers (judge (length text.now) (λ w. write_good to w (length buffer.old)) (read_all text.now)) buffer.old buffer.new result }
{
    let a = reader::read(text, img);
    let code = a.code;
    let words = a.number;
    if code != numbers::DONE {
        return a;
    }
    writer::write_good(&img[..words], buffer, to)
}

// A pack text of either form, written anew in this one.
fn rewrite(text: &[u8], buffer: &mut [u8], to: Form) -> Answer
    requires { length text.now ≤ longest_text }
    ensures { Delivers (judge (length text.now) (λ w. write_good to w (length buffer.old)) (read_all text.now)) buffer.old buffer.new result }
{
    let mut img = [0u16; pack::image::LARGEST_IMAGE];
    rewrite_by(text, &mut img, buffer, to)
}

// A pack text moved to this form from the other one, which is the one that its first line has to tell.
fn moved(text: &[u8], buffer: &mut [u8], to: Form) -> Answer
    ensures value { result ≡ (reform (other to) to text.now buffer.old).answer }
    ensures buffer_after { buffer.new ≡ buffer_after buffer.old (reform (other to) to text.now buffer.old) }
{
    if numbers::LONGEST_TEXT < text.len() {
        return Answer {
            code: numbers::TEXT_TOO_LONG,
            number: 0,
        };
    }
    let form = firstline::form_of(text);
    match (form, to) {
        (Form::One, Form::Two) => rewrite(text, buffer, Form::Two),
        (Form::Two, Form::One) => rewrite(text, buffer, Form::One),
        _ => Answer {
            code: numbers::NOT_THE_FORM,
            number: 0,
        },
    }
}

// Moves a pack text from form 1 to form 2. Codes 2, 1 and 4 for the text that is given, and then 2 and 3 for the one that is asked for, leave
// the buffer untouched; done puts its bytes at the front.
pub fn to_form2(text: &[u8], buffer: &mut [u8]) -> Answer
    ensures value { result ≡ (reform One Two text.now buffer.old).answer }
    ensures buffer_after { buffer.new ≡ buffer_after buffer.old (reform One Two text.now buffer.old) }
{
    moved(text, buffer, Form::Two)
}

// Moves a pack text from form 2 to form 1, in the same way.
pub fn to_form1(text: &[u8], buffer: &mut [u8]) -> Answer
    ensures value { result ≡ (reform Two One text.now buffer.old).answer }
    ensures buffer_after { buffer.new ≡ buffer_after buffer.old (reform Two One text.now buffer.old) }
{
    moved(text, buffer, Form::One)
}
