// The first line of a pack text, and the form that it tells.
#![tactic(auto)]

ghost use Rattle.std.specs.Prelude.{◌≡◌, [], MatchOption};
ghost use Rattle.text.specs.Form.{pack_line};
ghost use Rattle.text.specs.Reader.{expect, form_of};
ghost use Rattle.fields.specs.Steps.{IsWrong, Reads};

use rows::expect;
use text::Form;

// The first line of a form: the bytes behind it.
pub fn first_line(text: &[u8], form: Form) -> Option<&[u8]>
    ensures { MatchOption result (IsWrong (expect (pack_line form)) text.now) (λ r. Reads (expect (pack_line form)) text.now [] r.now) }
{
    match form {
        Form::One => expect(text, b"pack=1\n"),
        Form::Two => expect(text, b"pack=2\n"),
    }
}

// The form of a text: its first line tells it. Where it is that of neither, form 1 finds it wrong.
pub fn form_of(text: &[u8]) -> Form
    ensures { result ≡ form_of text.now }
{
    match first_line(text, Form::Two) {
        Some(_) => Form::Two,
        None => Form::One,
    }
}
