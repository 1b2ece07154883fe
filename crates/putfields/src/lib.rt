// Writing the fields of a line: each part is put from a place of the buffer on, where there is room for it, and gives the place after it.
// Its bytes are written there, or only counted: the sink says which.
#![tactic(auto)]

mod sinks; // sinks.rt: bytes that are written, and bytes that are counted

ghost use Rattle.std.specs.Prelude.{◌≡◌, [], ◌+◌, ◌*◌, ◌<◌, ◌≤◌, length, get_or};
ghost use Rattle.text.specs.Decimal.{decimal};
ghost use Rattle.text.specs.Fields.{hex_of, hex_word, field_text, width_of};
ghost use Rattle.text.specs.Writer.{fields_text};

pub use sinks::{Buffer, Counter, Sink};
use text::Kind;

// The hex digits.
const HEX_DIGITS: [u8; 16] = *b"0123456789abcdef";

// The word at a place; 0 where there is none.
pub fn word(img: &[u16], i: usize) -> usize
    ensures { (result ≡ get_or img.now i 0) × (result < 65536) }
{
    usize::from(img.get(i).copied().unwrap_or(0))
}

// A name, which is as long as that of a table at the most: the compiler then lays out the turns one after the other.
pub fn write_name<S: Sink>(out: &mut [u8], at: usize, name: &[u8]) -> usize
    requires { (length name.now ≤ 7) × (length name.now ≤ S.room out.old at) }
    ensures taken { S.takes out.old at name.now out.new result }
    ensures room { S.room out.new result + length name.now ≡ S.room out.old at }
{
    let mut to = at;
    for i in 0..text::LONGEST_NAME {
        if name.len() <= i {
            return to;
        }
        to = S::put(out, to, name[i]);
    }
    to
}

// A number in decimal.
pub fn write_decimal<S: Sink>(out: &mut [u8], at: usize, n: usize) -> usize
    requires { (n < 65536) × (length (decimal n) ≤ S.room out.old at) }
    ensures taken { S.takes out.old at (decimal n) out.new result }
    ensures room { S.room out.new result + length (decimal n) ≡ S.room out.old at }
{
    S::put_decimal(out, at, n)
}

// The byte of a hex digit.
fn hex_byte(d: usize) -> u8
    requires { d < 16 }
    ensures { result ≡ hex_of d }
{
    HEX_DIGITS[d]
}

// A word as four hex digits.
fn write_hex_word<S: Sink>(out: &mut [u8], at: usize, w: usize) -> usize
    requires { (w < 65536) × (4 ≤ S.room out.old at) }
    ensures taken { S.takes out.old at (hex_word w []) out.new result }
    ensures room { S.room out.new result + 4 ≡ S.room out.old at }
{
    let a = S::put(out, at, hex_byte(w / 16 / 16 / 16));
    let b = S::put(out, a, hex_byte(w / 16 / 16 % 16));
    let c = S::put(out, b, hex_byte(w / 16 % 16));
    S::put(out, c, hex_byte(w % 16))
}

// A set as 16 hex digits: its four words, highest first.
fn write_set<S: Sink>(out: &mut [u8], at: usize, img: &[u16], i: usize) -> usize
    requires { (i ≤ 1000000) × (16 ≤ S.room out.old at) }
    ensures taken { S.takes out.old at (field_text Kind.Set img.now i) out.new result }
    ensures room { S.room out.new result + 16 ≡ S.room out.old at }
{
    let a = write_hex_word::<S>(out, at, word(img, i + 3));
    let b = write_hex_word::<S>(out, a, word(img, i + 2));
    let c = write_hex_word::<S>(out, b, word(img, i + 1));
    write_hex_word::<S>(out, c, word(img, i))
}

// The field whose words stand at a place of the image.
#[tactic(auto, using(crate::proofs::FieldLaws::set_sixteen), unfolding(text::specs::Fields::field_text))]
fn write_field<S: Sink>(out: &mut [u8], at: usize, img: &[u16], i: usize, kind: Kind) -> usize
    requires { (i ≤ 1000000) × (length (field_text kind img.now i) ≤ S.room out.old at) }
    ensures taken { S.takes out.old at (field_text kind img.now i) out.new result }
    ensures room { S.room out.new result + length (field_text kind img.now i) ≡ S.room out.old at }
{
    match kind {
        Kind::Number => write_decimal::<S>(out, at, word(img, i)),
        Kind::Set => write_set::<S>(out, at, img, i),
    }
}

// The words of a field.
fn width(kind: Kind) -> usize
    ensures { result ≡ width_of kind }
{
    match kind {
        Kind::Number => 1,
        Kind::Set => pack::image::SET_WORDS,
    }
}

// So many fields of one kind, split by commas.
pub fn write_fields<S: Sink>(
    out: &mut [u8],
    at: usize,
    img: &[u16],
    i: usize,
    kind: Kind,
    n: usize,
    end: u8,
) -> usize
    requires { (i + n * width_of kind ≤ 1000000) × (length (fields_text kind n end img.now i) ≤ S.room out.old at) }
    ensures taken { S.takes out.old at (fields_text kind n end img.now i) out.new result }
    ensures room { S.room out.new result + length (fields_text kind n end img.now i) ≡ S.room out.old at }
{
    let mut to = at;
    let mut from = i;
    for left in (0..n).rev() {
        to = write_field::<S>(out, to, img, from, kind);
        to = S::put(out, to, rowkinds::after(left, end));
        from += width(kind);
    }
    to
}
