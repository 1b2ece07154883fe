// Reading a number at the front of the bytes that are left, and a byte that stands there. What is right gives the bytes behind it.
#![tactic(auto)]

ghost use Rattle.std.specs.Prelude.{◌≡◌, ◌&&◌, nat_eq, nat_le, slice_index, [], ◌∷◌, ◌+◌, ◌<◌, ◌≤◌, MatchOption, IfSome, Some, None, length, drop};
ghost use Rattle.text.specs.Decimal.{digits_from, read_number};
ghost use Rattle.text.specs.Reader.{expect};
ghost use Rattle.fields.specs.Steps.{IsWrong, Reads, OneDigit, taken};

// The decimal digits at the front as a number, and how many they are; no further once their number is above the limit.
#[tactic(auto, using(crate::proofs::FieldLaws::digits_stop, crate::proofs::FieldLaws::digits_much, crate::proofs::FieldLaws::digits_on, crate::proofs::FieldLaws::digits_end))]
fn digits(bytes: &[u8], limit: u32) -> (u64, usize)
    ensures value { digits_from limit bytes.now 0 0 ≡ record { value = result.0; used = result.1 } }
    ensures used_in_bounds { result.1 ≤ length bytes.now }
{
    let mut value: u64 = 0;
    for (used, b) in bytes.iter().enumerate() {
        if !b.is_ascii_digit() {
            return (value, used);
        }
        if u64::from(limit) < value {
            return (value, used);
        }
        value = value * 10 + u64::from(*b - b'0');
    }
    (value, bytes.len())
}

// Whether a 0 stands in front of another digit.
fn leading_zero(bytes: &[u8], used: usize) -> bool
    requires { used ≤ length bytes.now }
    ensures { result ≡ (nat_eq (slice_index bytes.now 0) 48 && nat_le 2 used) }
{
    1 < used && bytes[0] == b'0'
}

// A number: the limit at the most, and no 0 in front of another digit.
pub fn read_number(bytes: &[u8], limit: u32) -> Option<(u32, &[u8])>
    ensures value { MatchOption result (taken (read_number limit bytes.now) bytes.now ≡ None) (λ r. taken (read_number limit bytes.now) bytes.now ≡ Some (r.0, r.1.now)) }
    ensures used_in_bounds { IfSome result (λ r. length r.1.now + (read_number limit bytes.now).used ≡ length bytes.now) }
    ensures limited { IfSome result (λ r. r.0 ≤ limit) }
{
    let (value, used) = digits(bytes, limit);
    if used == 0 {
        return None;
    }
    if u64::from(limit) < value {
        return None;
    }
    if leading_zero(bytes, used) {
        return None;
    }
    Some((value as u32, &bytes[used..]))
}

// One digit, and behind it this byte: the most common number, which a row reads by itself.
pub fn one_digit(bytes: &[u8], next: u8) -> Option<(u16, &[u8])>
    ensures { IfSome result (λ r. OneDigit bytes.now next r.0 r.1.now) }
{
    match bytes {
        [digit @ b'0'..=b'9', behind, rest @ ..] if *behind == next => {
            Some((u16::from(*digit - b'0'), rest))
        }
        _ => None,
    }
}

// This byte.
#[tactic(auto, using(crate::proofs::PartLaws::stands_short))]
pub fn stands(bytes: &[u8], next: u8) -> Option<&[u8]>
    ensures { MatchOption result (IsWrong (expect (next ∷ [])) bytes.now) (λ r. Reads (expect (next ∷ [])) bytes.now [] r.now) }
{
    let Some((first, rest)) = bytes.split_first() else {
        return None; // no byte is left
    };
    if *first == next { Some(rest) } else { None }
}
