// The rules of the shape for the scanner's tables and the groups, each a test of one word or of one set. These are inner functions, which ask for
// an image that is laid out as its sizes say. Passed on: the rules for the sizes, the layout and the parser's tables.
#![tactic(auto)]

ghost use Rattle.std.specs.Prelude.{◌≡◌, ◌<◌, ◌≤◌};
ghost use Rattle.pack.specs.Image.{scan_states, ranges, groups};
ghost use Rattle.pack.specs.Laid.{Laid};
ghost use Rattle.parserules.specs.Rules.{fits, above_previous, ends_right, class_right, empty_at_start, acc_right, rej_right, poss_right, differs, group_right, chosen_right};

use pack::image;
pub use parserules::{
    act_right, dom_right, fits, layout_right, len_right, lhs_right, size_right, symbol_right,
};

// A range begins above the one before it.
#[tactic(auto, unfolding(parserules::specs::Rules::above_previous))]
pub fn above_previous(img: &[u16], r: usize) -> bool
    requires laid { Laid img.now }
    requires r_bound { r < ranges img.now }
    ensures { result ≡ above_previous img.now r }
{
    r == 0 || image::hi(img, r - 1) < image::lo(img, r)
}

pub fn ends_right(img: &[u16], r: usize) -> bool
    requires laid { Laid img.now }
    requires r_bound { r < ranges img.now }
    ensures { result ≡ ends_right img.now r }
{
    let hi = image::hi(img, r);
    image::lo(img, r) <= hi && hi <= image::GREATEST_BYTE
}

pub fn class_right(img: &[u16], r: usize) -> bool
    requires laid { Laid img.now }
    requires r_bound { r < ranges img.now }
    ensures { result ≡ class_right img.now r }
{
    image::range_class(img, r) < image::classes(img)
}

// acc and rej are empty in scan state 0.
#[tactic(auto, unfolding(parserules::specs::Rules::empty_at_start, sets::specs::Sets::is_empty))]
fn empty_at_start(q: usize, set: u64) -> bool
    ensures { result ≡ empty_at_start q set }
{
    q != 0 || set == 0
}

pub fn acc_right(img: &[u16], q: usize) -> bool
    requires laid { Laid img.now }
    requires q_bound { q < scan_states img.now }
    ensures { result ≡ acc_right img.now q }
{
    let acc = image::acc(img, q);
    fits(img, acc) && empty_at_start(q, acc)
}

#[tactic(auto, unfolding(sets::specs::Sets::is_empty))]
pub fn rej_right(img: &[u16], q: usize) -> bool
    requires laid { Laid img.now }
    requires q_bound { q < scan_states img.now }
    ensures { result ≡ rej_right img.now q }
{
    let rej = image::rej(img, q);
    fits(img, rej) && empty_at_start(q, rej) && image::acc(img, q) & rej == 0
}

pub fn poss_right(img: &[u16], q: usize) -> bool
    requires laid { Laid img.now }
    requires q_bound { q < scan_states img.now }
    ensures { result ≡ poss_right img.now q }
{
    fits(img, image::poss(img, q))
}

// The set is that of none of the first n groups.
#[tactic(auto, using(crate::proofs::Laws::differs_not, crate::proofs::Laws::differs_on, crate::proofs::Laws::differs_end))]
fn differs(img: &[u16], set: u64, n: usize) -> bool
    requires laid { Laid img.now }
    requires n_bound { n ≤ groups img.now }
    ensures { result ≡ differs img.now set n 0 }
{
    for g in 0..n {
        if image::group_set(img, g) == set {
            return false;
        }
    }
    true
}

pub fn group_right(img: &[u16], g: usize) -> bool
    requires laid { Laid img.now }
    requires g_bound { g < groups img.now }
    ensures { result ≡ group_right img.now g }
{
    let set = image::group_set(img, g);
    fits(img, set) && sets::several(set) && differs(img, set, g)
}

pub fn chosen_right(img: &[u16], g: usize) -> bool
    requires laid { Laid img.now }
    requires g_bound { g < groups img.now }
    ensures { result ≡ chosen_right img.now g }
{
    sets::member(image::group_set(img, g), image::chosen(img, g))
}
