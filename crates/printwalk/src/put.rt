// Bytes and numbers, each written so that it ends at a place of the buffer. The place where it begins comes back.
ghost use Rattle.std.specs.Prelude.{◌≡◌, [], ◌∷◌, ◌+◌, ◌*◌, ◌<◌, ◌≤◌, length};
ghost use Rattle.text.specs.Decimal.{decimal};
ghost use Rattle.print.specs.Print.{escaped_byte, escaped, show};
ghost use Rattle.measure.specs.Steps.{leaf_of};
ghost use Rattle.printwalk.specs.Steps.{Room, Wrote};

use escape::special;
use measure::{RECORD_WORDS, leaf_bytes, word};

// One byte.
pub fn put(out: &mut [u8], to: usize, b: u8) -> usize
    requires { Room (b ∷ []) out.old to }
    ensures { Wrote (b ∷ []) out.old to out.new result }
{
    let at = to - 1;
    out[at] = b;
    at
}

// The byte of a decimal digit.
fn digit_byte(d: usize) -> u8
    requires { d < 10 }
    ensures { result ≡ 48 + d }
{
    (48 + d) as u8
}

// A number in decimal.
pub fn put_number(out: &mut [u8], to: usize, n: usize) -> usize
    requires { Room (decimal n) out.old to }
    ensures { Wrote (decimal n) out.old to out.new result }
{
    if n < 10 {
        return put(out, to, digit_byte(n));
    }
    let at = put(out, to, digit_byte(n % 10));
    put_number(out, at, n / 10)
}

// A byte, with a backslash in front of it where it is special.
fn put_escaped(out: &mut [u8], to: usize, b: u8) -> usize
    requires { Room (escaped_byte b) out.old to }
    ensures { Wrote (escaped_byte b) out.old to out.new result }
{
    let at = put(out, to, b);
    if special(b) {
        return put(out, at, b'\\');
    }
    at
}

// The bytes of a leaf.
fn put_bytes(out: &mut [u8], to: usize, bytes: &[u8]) -> usize
    requires { Room (escaped bytes.now) out.old to }
    ensures { Wrote (escaped bytes.now) out.old to out.new result }
{
    let mut at = to;
    for i in (0..bytes.len()).rev() {
        at = put_escaped(out, at, bytes[i]);
    }
    at
}

// The leaf that is record n.
pub fn put_leaf(text: &[u8], tree: &[u16], n: usize, out: &mut [u8], to: usize) -> usize
    requires n_in_bounds { n * 4 + 4 ≤ length tree.now }
    requires room { Room (show (leaf_of text.now tree.now n)) out.old to }
    ensures { Wrote (show (leaf_of text.now tree.now n)) out.old to out.new result }
{
    let end = put(out, to, b']');
    let begin = put_bytes(out, end, leaf_bytes(text, tree, n));
    let bracket = put(out, begin, b'[');
    let colon = put(out, bracket, b':');
    put_number(out, colon, word(tree, n * RECORD_WORDS))
}
