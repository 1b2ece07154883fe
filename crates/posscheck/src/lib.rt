// K2, the condition on what is possible: its test, and the search for the first scan state at which it fails.
#![tactic(auto)]

ghost use Rattle.std.specs.Prelude.{◌≡◌, ◌<◌, ◌≤◌};
ghost use Rattle.pack.specs.Image.{scan_states};
ghost use Rattle.pack.specs.Laid.{Laid};
ghost use Rattle.numbers.specs.Verdicts.{Good};
ghost use Rattle.shape.specs.Shape.{shape};
ghost use Rattle.conditions.specs.Conditions.{within, k2};
ghost use Rattle.conditions.specs.Check.{c2, finding_of, find};

use pack::image;

// Whether a move of q leads nowhere, or to a state whose poss is within that of q.
fn within(img: &[u16], q: usize, code: usize) -> bool
    requires laid { Laid img.now }
    requires q_bound { (q < scan_states img.now) × (code ≤ scan_states img.now) }
    ensures { result ≡ within img.now q code }
{
    match code.checked_sub(1) {
        Some(next) => sets::subset(image::poss(img, next), image::poss(img, q)),
        None => true,
    }
}

// K2 of scan state q.
fn k2(img: &[u16], q: usize) -> bool
    requires laid { Laid img.now }
    requires good_shape { shape img.now ≡ Good }
    requires q_bound { q < scan_states img.now }
    ensures { result ≡ k2 img.now q }
{
    let m = image::acc(img, q) | image::rej(img, q);
    if !sets::subset(m, image::poss(img, q)) {
        return false;
    }
    for c in 0..image::classes(img) {
        if !within(img, q, image::move_of(img, q, c)) {
            return false;
        }
    }
    true
}

// The first scan state at which K2 fails.
pub fn find_k2(img: &[u16]) -> Option<(usize, usize)>
    requires laid { Laid img.now }
    requires good_shape { shape img.now ≡ Good }
    ensures { finding_of result ≡ find c2 img.now }
{
    conditions::first_wrong(image::scan_states(img), |q| k2(img, q))
}
