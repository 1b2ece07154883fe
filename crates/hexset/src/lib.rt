// Reading a set at the front of the bytes that are left, and its words in a row.
#![tactic(auto)]

ghost use Rattle.std.specs.Prelude.{◌≡◌, ◌++◌, ◌+◌, ◌*◌, ◌<◌, ◌≤◌, MatchOption, IfSome, Some, None, length, take};
ghost use Rattle.pack.specs.Image.{set_words};
ghost use Rattle.text.specs.Fields.{hex_digit, read_set, words_of};
ghost use Rattle.fields.specs.Steps.{taken};
ghost use Rattle.hexset.specs.Steps.{hex_four};

use text::Kind;

// The digits of a set.
const DIGITS: usize = 16;

// Four bytes `0`, joined.
const FOUR_ZEROS: u64 = 808464432;

// The value of a hex digit, which the definition tells as 1 more.
#[tactic(auto, using(crate::proofs::HexLaws::digit_ten, crate::proofs::HexLaws::digit_letter, text::proofs::Hex::hex_low, text::proofs::Hex::hex_middle, text::proofs::Hex::hex_high))]
fn hex_digit(b: u8) -> Option<u64>
    ensures value { MatchOption result (hex_digit b ≡ 0) (λ d. hex_digit b ≡ d + 1) }
    ensures small { IfSome result (λ d. d < 16) }
{
    match b {
        b'0'..=b'9' => Some(u64::from(b - b'0')),
        b'a'..=b'f' => Some(u64::from(b - b'a') + 10),
        _ => None,
    }
}

// Four bytes as one number, the first one lowest.
fn join(a: u8, b: u8, c: u8, d: u8) -> u64
    ensures { result ≡ a + b * 256 + c * 65536 + d * 16777216 }
{
    u64::from(a) + u64::from(b) * 256 + u64::from(c) * 65536 + u64::from(d) * 16777216
}

// The value of four hex digits. Most words of sets are 0, and four bytes `0` are known at once.
fn four(a: u8, b: u8, c: u8, d: u8) -> Option<u64>
    ensures { MatchOption result (hex_four a b c d ≡ None) (λ w. hex_four a b c d ≡ Some w) }
{
    if join(a, b, c, d) == FOUR_ZEROS {
        return Some(0);
    }
    let i = hex_digit(a)?;
    let j = hex_digit(b)?;
    let k = hex_digit(c)?;
    let l = hex_digit(d)?;
    Some(((i * 16 + j) * 16 + k) * 16 + l)
}

// A set: 16 hex digits, four at a time.
pub fn read_set(bytes: &[u8]) -> Option<(u64, &[u8])>
    ensures value { MatchOption result (taken (read_set bytes.now) bytes.now ≡ None) (λ r. taken (read_set bytes.now) bytes.now ≡ Some (r.0, r.1.now)) }
    ensures used_in_bounds { IfSome result (λ r. length r.1.now + (read_set bytes.now).used ≡ length bytes.now) }
{
    if bytes.len() < DIGITS {
        return None;
    }
    let mut value: u64 = 0;
    for i in 0..DIGITS / 4 {
        let at = i * 4;
        let word = four(bytes[at], bytes[at + 1], bytes[at + 2], bytes[at + 3])?;
        value = value * 65536 + word;
    }
    Some((value, &bytes[DIGITS..]))
}

// A set as four words of a row, from a place on, lowest first.
pub fn set_words(img: &mut [u16], words: usize, value: u64)
    requires { words + set_words ≤ length img.old }
    ensures { take (words + set_words) img.new ≡ take words img.old ++ words_of Kind.Set value }
{
    img[words] = (value % 65536) as u16;
    img[words + 1] = (value / 65536 % 65536) as u16;
    img[words + 2] = (value / 65536 / 65536 % 65536) as u16;
    img[words + 3] = (value / 65536 / 65536 / 65536) as u16;
}
