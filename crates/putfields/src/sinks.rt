// What becomes of the bytes of a text: they are written to lent bytes, or only counted.
ghost use Rattle.std.specs.Prelude.{◌≡◌, ℕ, List, [], ◌∷◌, ◌++◌, ◌+◌, ◌-◌, ◌^◌, ◌<◌, ◌≤◌, length};
ghost use Rattle.text.specs.Decimal.{decimal};
ghost use Rattle.putfields.specs.Steps.{Wrote, lead};

// What becomes of the bytes of a text, which are put one after the other. The place goes from part to part as a number: in a sink beside the
// lent bytes it would go through memory for each byte.
pub trait Sink {
    // How many bytes more there is room for.
    ghost room: { List ℕ → ℕ → ℕ };

    // What the lent bytes and the place are after these bytes.
    ghost takes: { List ℕ → ℕ → List ℕ → List ℕ → ℕ → Type 0 };

    // One byte: the place after it.
    fn put(out: &mut [u8], at: usize, b: u8) -> usize
        requires { 0 < room out.old at }
        ensures taken { takes out.old at (b ∷ []) out.new result }
        ensures room { room out.new result + 1 ≡ room out.old at };

    // A number in decimal: the place after it.
    fn put_decimal(out: &mut [u8], at: usize, n: usize) -> usize
        requires { (n < 65536) × (length (decimal n) ≤ room out.old at) }
        ensures taken { takes out.old at (decimal n) out.new result }
        ensures room { room out.new result + length (decimal n) ≡ room out.old at };

    ghost takes_none: { (out : List ℕ) (at : ℕ) → takes out at [] out at };

    ghost takes_more: { (a : List ℕ) (i : ℕ) (b : List ℕ) (j : ℕ) (c : List ℕ) (k : ℕ) (xs ys : List ℕ) → takes a i xs b j → takes b j ys c k → takes a i (xs ++ ys) c k };
}

// Writes the bytes from the place on.
pub struct Buffer;

impl Sink for Buffer {
    ghost use Rattle.putfields.specs.Writes.{wrote_none, wrote_two};

    ghost room = { λ out at. length out - at };

    ghost takes = { λ out at xs written end. Wrote xs out at written end };

    ghost takes_none = { λ out at. wrote_none out at };

    ghost takes_more = { λ a i b j c k xs ys p q. wrote_two xs ys p q };

    fn put(out: &mut [u8], at: usize, b: u8) -> usize {
        out[at] = b;
        at + 1
    }

    // By a chain of tests. Most numbers of a pack have one digit.
    #[tactic(auto, using(crate::proofs::FieldLaws::one_digit, crate::proofs::FieldLaws::decimal_length))]
    fn put_decimal(out: &mut [u8], at: usize, n: usize) -> usize {
        if n < 10 {
            return Self::put(out, at, digit_byte(n));
        }
        let a = put_lead(out, at, n / 10 / 10 / 10 / 10);
        let b = put_lead(out, a, n / 10 / 10 / 10);
        let c = put_lead(out, b, n / 10 / 10);
        let d = put_lead(out, c, n / 10);
        Self::put(out, d, digit_byte(n % 10))
    }
}

// The byte of a decimal digit.
fn digit_byte(d: usize) -> u8
    requires { d < 10 }
    ensures { result ≡ 48 + d }
{
    (48 + d) as u8
}

// The last digit of what is left of a number; nothing where nothing is left.
#[tactic(auto, using(crate::proofs::FieldLaws::lead_length))]
fn put_lead(out: &mut [u8], at: usize, q: usize) -> usize
    requires { at + length (lead q) ≤ length out.old }
    ensures { Wrote (lead q) out.old at out.new result }
{
    if q == 0 {
        return at;
    }
    Buffer::put(out, at, digit_byte(q % 10))
}

// Counts the bytes, and writes none.
pub struct Counter;

impl Sink for Counter {
    ghost use Rattle.std.proofs.Common.{arith, refl, ◌∙◌, length-append};

    ghost room = { λ out at. 2 ^ 63 - at };

    ghost takes = { λ out at xs written end. (written ≡ out) × (end ≡ at + length xs) };

    ghost takes_none = { λ out at. (refl, Prim.omega arith) };

    ghost takes_more = { λ a i b j c k xs ys p q. (q.0 ∙ p.0, Prim.omega (arith, length-append xs ys, p.1, q.1)) };

    fn put(_out: &mut [u8], at: usize, _b: u8) -> usize {
        at + 1
    }

    // By a sum of tests, without a branch.
    #[tactic(auto, using(crate::proofs::FieldLaws::decimal_length))]
    fn put_decimal(_out: &mut [u8], at: usize, n: usize) -> usize {
        at + number_size(n)
    }
}

// The bytes of one digit, or of none.
#[tactic(auto, using(crate::proofs::FieldLaws::lead_none, crate::proofs::FieldLaws::lead_length))]
fn lead_size(q: usize) -> usize
    ensures { (result ≡ length (lead q)) × (result ≤ 1) }
{
    usize::from(q != 0)
}

// The digits of a number.
#[tactic(auto, using(crate::proofs::FieldLaws::decimal_length))]
fn number_size(n: usize) -> usize
    requires { n < 65536 }
    ensures { (result ≡ length (decimal n)) × (result ≤ 5) }
{
    let a = lead_size(n / 10 / 10 / 10 / 10);
    let b = lead_size(n / 10 / 10 / 10);
    let c = lead_size(n / 10 / 10);
    let d = lead_size(n / 10);
    a + b + c + d + 1
}
