// K5, the condition on the ways back: its test, and the search for the first parse state and production at which it fails.
#![tactic(auto)]

ghost use Rattle.std.specs.Prelude.{◌≡◌, true, ◌<◌, ◌≤◌, length};
ghost use Rattle.pack.specs.Image.{most_symbols, states, productions};
ghost use Rattle.pack.specs.Laid.{Laid};
ghost use Rattle.numbers.specs.Verdicts.{Good};
ghost use Rattle.shape.specs.Shape.{shape};
ghost use Rattle.conditions.specs.Conditions.{reduces, k5};
ghost use Rattle.conditions.specs.Check.{c5, test, in_row, finding_of, find};
ghost use Rattle.edges.specs.Tables.{Sources, Carried, Goers};
ghost use Rattle.walkback.specs.Walked.{Walked};

use edges::rows::NumberSet;
use pack::image;
use walkback::Walk;

// K5 of parse state s and a production p that its row reduces by. The walk back from s goes on where it stands.
fn production(
    img: &[u16],
    s: usize,
    p: usize,
    from: &[NumberSet; 128],
    on: &[NumberSet; 128],
    goes: &[NumberSet; 128],
    walk: &mut Walk,
) -> bool
    requires laid { Laid img.now }
    requires good_shape { shape img.now ≡ Good }
    requires s_bound { (s < states img.now) × ((p < productions img.now) × (walk.old.depth ≤ most_symbols)) }
    requires row_reduces { reduces img.now s p ≡ true }
    requires edge_tables { (Sources img.now (states img.now) from.now) × (Carried img.now (states img.now) on.now) }
    requires goers { Goers img.now (states img.now) goes.now }
    requires walked { Walked img.now s walk.old.depth walk.old.back walk.old.into }
    ensures { (result ≡ k5 img.now s p) × ((Walked img.now s walk.new.depth walk.new.back walk.new.into) × (walk.new.depth ≤ most_symbols)) }
{
    walkback::extend(img, s, from, on, walk, image::len(img, p));
    walkback::all_steps(img, s, p, walk) && walkback::end_right(img, s, p, goes, walk)
}

// K5 of parse state s: the first production that fails. What does not depend on the production is worked out once, in a walk that may hold
// anything before.
fn row5(
    img: &[u16],
    s: usize,
    from: &[NumberSet; 128],
    on: &[NumberSet; 128],
    goes: &[NumberSet; 128],
    walk: &mut Walk,
) -> Option<(usize, usize)>
    requires laid { Laid img.now }
    requires good_shape { shape img.now ≡ Good }
    requires s_bound { s < states img.now }
    requires edge_tables { (Sources img.now (states img.now) from.now) × (Carried img.now (states img.now) on.now) }
    requires goers { Goers img.now (states img.now) goes.now }
    ensures value { finding_of result ≡ in_row (test c5 img.now s) s (productions img.now) 0 }
    ensures lengths_after { (length walk.new.back ≡ 128) × (length walk.new.into ≡ 128) }
{
    let by = edges::reductions(img, s);
    walk.back[0] = NumberSet::of(s);
    walk.depth = 0;
    let mut from_production = 0;
    while let Some(p) = by.next(from_production) {
        if !production(img, s, p, from, on, goes, walk) {
            return Some((s, p));
        }
        from_production = p + 1;
    }
    None
}

// The first parse state, and its first production, at which K5 fails.
pub fn find_k5(
    img: &[u16],
    from: &[NumberSet; 128],
    on: &[NumberSet; 128],
    goes: &[NumberSet; 128],
) -> Option<(usize, usize)>
    requires laid { Laid img.now }
    requires good_shape { shape img.now ≡ Good }
    requires edge_tables { (Sources img.now (states img.now) from.now) × (Carried img.now (states img.now) on.now) }
    requires goers { Goers img.now (states img.now) goes.now }
    ensures { finding_of result ≡ find c5 img.now }
{
    let mut walk = Walk {
        back: [NumberSet::EMPTY; 128],
        into: [NumberSet::EMPTY; 128],
        depth: 0,
    };
    for s in 0..image::states(img) {
        if let Some(places) = row5(img, s, from, on, goes, &mut walk) {
            return Some(places);
        }
    }
    None
}
