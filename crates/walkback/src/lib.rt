// The walk back of K5 from a parse state: its rows, step by step, and the tests of a production over them.
#![tactic(auto)]

ghost use Rattle.std.specs.Prelude.{◌≡◌, ◌<◌, ◌≤◌};
ghost use Rattle.pack.specs.Image.{most_symbols, states, productions, len};
ghost use Rattle.pack.specs.Laid.{Laid};
ghost use Rattle.numbers.specs.Verdicts.{Good};
ghost use Rattle.shape.specs.Shape.{shape};
ghost use Rattle.conditions.specs.Tests.{all_below};
ghost use Rattle.conditions.specs.Conditions.{steps, ends};
ghost use Rattle.edges.specs.Tables.{Sources, Carried, Goers};
ghost use Rattle.walkback.specs.Walked.{Walked};

use edges::rows::NumberSet;
use pack::image;

// The rows of a walk back, and how many steps are made: the states that each step reaches, and the symbols on all edges into those.
#[derive(Drop)]
pub struct Walk {
    pub back: [NumberSet; 128],
    pub into: [NumberSet; 128],
    pub depth: usize,
}

// Steps back from s until at least so many are made.
pub fn extend(
    img: &[u16],
    s: usize,
    from: &[NumberSet; 128],
    on: &[NumberSet; 128],
    walk: &mut Walk,
    want: usize,
)
    requires laid { Laid img.now }
    requires s_bound { (s < states img.now) × ((walk.old.depth ≤ most_symbols) × (want ≤ most_symbols)) }
    requires edge_tables { (Sources img.now (states img.now) from.now) × (Carried img.now (states img.now) on.now) }
    requires walked { Walked img.now s walk.old.depth walk.old.back walk.old.into }
    ensures { (Walked img.now s walk.new.depth walk.new.back walk.new.into) × ((want ≤ walk.new.depth) × (walk.new.depth ≤ most_symbols)) }
{
    for depth in walk.depth..want {
        joins::collect(on, &walk.back, &mut walk.into, depth);
        joins::step(from, &mut walk.back, depth);
        walk.depth = depth + 1;
    }
}

// Whether every state reached by i steps back from s may take one more by production p: state 0 is not among them, and nothing but
// p's symbol is on their edges in.
#[tactic(auto, using(crate::proofs::Laws::len_most))]
fn step_right(img: &[u16], s: usize, p: usize, i: usize, walk: &Walk) -> bool
    requires laid { Laid img.now }
    requires good_shape { shape img.now ≡ Good }
    requires p_bound { (p < productions img.now) × (i < len img.now p) }
    requires walked { Walked img.now s (len img.now p) walk.now.back walk.now.into }
    ensures { result ≡ steps img.now s p i }
{
    if walk.back[i].contains(0) {
        return false;
    }
    walk.into[i].has_only(image::symbol(img, p, image::len(img, p) - 1 - i))
}

// Whether every step back is right.
#[tactic(auto, using(conditions::proofs::TestLaws::all_true))]
pub fn all_steps(img: &[u16], s: usize, p: usize, walk: &Walk) -> bool
    requires laid { Laid img.now }
    requires good_shape { shape img.now ≡ Good }
    requires p_bound { p < productions img.now }
    requires walked { Walked img.now s (len img.now p) walk.now.back walk.now.into }
    ensures { result ≡ all_below (len img.now p) (steps img.now s p) }
{
    for i in 0..image::len(img, p) {
        if !step_right(img, s, p, i, walk) {
            return false;
        }
    }
    true
}

// Whether every state reached at the end has a goto on the left side of production p.
#[tactic(auto, using(crate::proofs::Laws::len_most, crate::proofs::Laws::lhs_most))]
pub fn end_right(img: &[u16], s: usize, p: usize, goes: &[NumberSet; 128], walk: &Walk) -> bool
    requires laid { Laid img.now }
    requires good_shape { shape img.now ≡ Good }
    requires p_bound { p < productions img.now }
    requires goers { Goers img.now (states img.now) goes.now }
    requires walked { Walked img.now s (len img.now p) walk.now.back walk.now.into }
    ensures { result ≡ ends img.now s p }
{
    walk.back[image::len(img, p)].is_subset(goes[image::lhs(img, p)])
}
