// An index of the ranges, for a long scan: an entry for every eight bytes, by which it is known without a branch how many ranges begin at a byte or
// below it. The class of the byte is then read from the last of these.
#![tactic(auto)]

ghost use Rattle.std.specs.Prelude.{◌≡◌, ℕ, ◌+◌, ◌<◌, ◌≤◌, List};
ghost use Rattle.pack.specs.Image.{classes, ranges, lo, class_in, class_of};
ghost use Rattle.classes.specs.Ready.{Ready};
ghost use Rattle.index.specs.Index.{Begun, Tells, Indexed};

use pack::image;

// The bytes of an entry, and what is above its fields.
const BYTES: usize = 8;

const FIELDS: usize = 16777216;

// How many ranges begin at a byte or below it, of which so many are known.
#[tactic(auto, using(crate::proofs::Begins::found_next, crate::proofs::Begins::found_all))]
fn begun(img: &[u16], byte: usize, known: usize) -> usize
    requires ready { Ready img.now }
    requires known_bound { known ≤ ranges img.now }
    requires known_begun { (k : ℕ) → k < known → lo img.now k ≤ byte }
    ensures { Begun img.now byte result × (known ≤ result) }
{
    let n = image::ranges(img);
    for r in known..n {
        if byte < image::lo(img, r) {
            return r;
        }
    }
    n
}

// The entry of the eight bytes from one on, where so many ranges are known to begin at that one or below it.
#[tactic(auto, using(crate::proofs::Begins::eight_most, crate::proofs::Begins::next_fits))]
fn entry(img: &[u16], first: usize, known: usize) -> usize
    requires ready { Ready img.now }
    requires first_bound { first < 256 }
    requires known_bound { known ≤ ranges img.now }
    requires known_begun { (k : ℕ) → k < known → lo img.now k ≤ first }
    ensures { Tells img.now first result × (result < 4294967296) }
{
    let base = begun(img, first, known);
    let mut fields: usize = 0;
    let mut field: usize = 1;
    let mut all = base;
    for j in 0..BYTES {
        all = begun(img, first + j, all);
        fields += (all - base) * field;
        field *= 8;
    }
    base * FIELDS + fields
}

// The index.
#[tactic(auto, using(crate::proofs::Begins::one_entry))]
pub fn index_of(img: &[u16]) -> [u32; 32]
    requires { Ready img.now }
    ensures { Indexed img.now result }
{
    let mut index = [0u32; 32];
    let mut known: usize = 0;
    for (i, cell) in index.iter_mut().enumerate() {
        let e = entry(img, i * BYTES, known);
        *cell = e as u32;
        known = e / FIELDS;
    }
    index
}

// How many ranges begin at a byte or below it.
#[tactic(auto, using(crate::proofs::Begins::index_tells))]
fn told(index: &[u32; 32], byte: usize) -> usize
    requires { byte < 256 }
    ensures { (img : List ℕ) → Indexed img index.now → Begun img byte result }
{
    let e = index[byte / BYTES] as usize;
    e / FIELDS + (e >> (3 * (byte % BYTES))) % 8
}

// 0 for a byte behind the end of a range, and else 1: by arithmetic, since no machine foresees which.
fn up_to(byte: usize, end: usize) -> usize
    requires { (byte < 256) × (end < 65536) }
    ensures { (end < byte → result ≡ 0) × (byte ≤ end → result ≡ 1) }
{
    (end + 65536 - byte) / 65536
}

// The class of a byte, sought in range r, which begins at the byte or below it.
#[tactic(auto, using(crate::proofs::Begins::class_held))]
fn holding(img: &[u16], byte: usize, r: usize) -> usize
    requires ready { Ready img.now }
    requires byte_bound { byte < 256 }
    requires r_bound { r < ranges img.now }
    requires r_begun { lo img.now r ≤ byte }
    ensures { result ≡ class_in img.now byte 1 r }
{
    image::range_class(img, r) * up_to(byte, image::hi(img, r))
}

// The class of a byte, by the index.
#[tactic(auto, using(crate::proofs::Begins::none_begun))]
pub fn class_by(img: &[u16], index: &[u32; 32], b: u8) -> usize
    requires ready { Ready img.now }
    requires indexed { Indexed img.now index.now }
    ensures { (result ≡ class_of img.now b) × (result < classes img.now) }
{
    let byte = usize::from(b);
    let r = told(index, byte);
    if r == 0 {
        return 0;
    }
    holding(img, byte, r - 1)
}
