// The class of a byte, found from the ranges themselves. They rise, so that the search halves them: one step leaves 32, 16, 8, 4, 2 or 1 of
// them, and each of the others half of what was left. Laid out, each step has a branch of its own, which the machine learns.
#![tactic(auto)]

ghost use Rattle.std.specs.Prelude.{◌≡◌, ◌+◌, ◌<◌, ◌≤◌};
ghost use Rattle.pack.specs.Image.{classes, ranges, class_in, class_of};
ghost use Rattle.classes.specs.Ready.{Ready, Onward};

use pack::image;

// The range that the search goes on from: so many ranges later, where the one there does not begin above the byte.
fn onward(img: &[u16], byte: usize, r: usize, by: usize) -> usize
    requires ready { Ready img.now }
    requires by_bound { r + by < ranges img.now }
    ensures { Onward img.now byte r by result }
{
    let later = r + by;
    if byte < image::lo(img, later) {
        return r;
    }
    later
}

// The class of a byte, sought in range r alone.
#[tactic(auto, using(crate::proofs::Ranges::one_above, crate::proofs::Ranges::one_below, crate::proofs::Ranges::one_holds))]
fn in_range(img: &[u16], byte: usize, r: usize) -> usize
    requires ready { Ready img.now }
    requires r_bound { r + 1 ≤ ranges img.now }
    ensures { result ≡ class_in img.now byte 1 r }
{
    if byte < image::lo(img, r) {
        return 0;
    }
    if image::hi(img, r) < byte {
        return 0;
    }
    image::range_class(img, r)
}

// The class of a byte, sought in so many ranges from a range on: each step leaves half of them.
#[tactic(auto, using(crate::proofs::Ranges::halved, crate::proofs::Ranges::one_left))]
fn among(img: &[u16], byte: usize, from: usize, many: usize) -> usize
    requires ready { Ready img.now }
    requires in_ranges { (1 ≤ many) × (from + many ≤ ranges img.now) }
    ensures { result ≡ class_in img.now byte many from }
{
    let mut r = from;
    let mut left = many;
    while 1 < left {
        let half = left / 2;
        r = onward(img, byte, r, half);
        left -= half;
    }
    in_range(img, byte, r)
}

// The class of a byte, sought in all n ranges, of which the first step leaves so many.
#[tactic(auto, using(crate::proofs::Ranges::first_step))]
fn among_all(img: &[u16], byte: usize, n: usize, left: usize) -> usize
    requires ready { Ready img.now }
    requires two_halves { (n ≡ ranges img.now) × ((left < n) × (n ≤ left + left)) }
    ensures { result ≡ class_of img.now byte }
{
    among(img, byte, onward(img, byte, 0, n - left), left)
}

// The class of a byte. What the first step leaves is written down as a number, so that the compiler can lay out the others.
#[tactic(auto, using(crate::proofs::Ranges::one_alone, crate::proofs::Ranges::no_range))]
fn sought(img: &[u16], byte: usize) -> usize
    requires { Ready img.now }
    ensures { result ≡ class_of img.now byte }
{
    let n = image::ranges(img);
    if 32 < n {
        return among_all(img, byte, n, 32);
    }
    if 16 < n {
        return among_all(img, byte, n, 16);
    }
    if 8 < n {
        return among_all(img, byte, n, 8);
    }
    if 4 < n {
        return among_all(img, byte, n, 4);
    }
    if 2 < n {
        return among_all(img, byte, n, 2);
    }
    if 1 < n {
        return among_all(img, byte, n, 1);
    }
    if 0 < n {
        return in_range(img, byte, 0);
    }
    0
}

// The class of a byte.
pub fn class_of(img: &[u16], b: u8) -> usize
    requires { Ready img.now }
    ensures { (result ≡ class_of img.now b) × (result < classes img.now) }
{
    sought(img, usize::from(b))
}
