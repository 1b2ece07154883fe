// K4 and K6, the conditions on the edges into a parse state: their tests, and the search for the first state at which one fails.
#![tactic(auto)]

ghost use Rattle.std.specs.Prelude.{◌≡◌, ◌<◌};
ghost use Rattle.pack.specs.Image.{states};
ghost use Rattle.pack.specs.Laid.{Laid};
ghost use Rattle.conditions.specs.Conditions.{k4, k6};
ghost use Rattle.conditions.specs.Check.{c4, c6, finding_of, find};
ghost use Rattle.edges.specs.Tables.{Sources, Carried};

use edges::rows::NumberSet;
use pack::image;

// K4 of parse state v: of the symbols on its edges in, the least is the only one, and v is not 0 where there is one.
fn k4(img: &[u16], v: usize, on: &[NumberSet; 128]) -> bool
    requires laid { Laid img.now }
    requires v_bound { v < states img.now }
    requires carried { Carried img.now (states img.now) on.now }
    ensures { result ≡ k4 img.now v }
{
    match on[v].next(0) {
        None => true,
        Some(x) => on[v].has_only(x) && v != 0,
    }
}

// The first parse state at which K4 fails.
pub fn find_k4(img: &[u16], on: &[NumberSet; 128]) -> Option<(usize, usize)>
    requires laid { Laid img.now }
    requires carried { Carried img.now (states img.now) on.now }
    ensures { finding_of result ≡ find c4 img.now }
{
    conditions::first_wrong(image::states(img), |v| k4(img, v, on))
}

// K6 of parse state s: where it accepts, it is not 0, and all edges into it come from state 0 and have symbol 64 on them.
fn k6(img: &[u16], s: usize, from: &[NumberSet; 128], on: &[NumberSet; 128]) -> bool
    requires laid { Laid img.now }
    requires s_bound { s < states img.now }
    requires sources { Sources img.now (states img.now) from.now }
    requires carried { Carried img.now (states img.now) on.now }
    ensures { result ≡ k6 img.now s }
{
    if image::act(img, s, 0) != 1 {
        return true;
    }
    if !on[s].has_only(image::FIRST_NONTERMINAL) {
        return false;
    }
    from[s].has_only(0) && s != 0
}

// The first parse state at which K6 fails.
pub fn find_k6(
    img: &[u16],
    from: &[NumberSet; 128],
    on: &[NumberSet; 128],
) -> Option<(usize, usize)>
    requires laid { Laid img.now }
    requires sources { Sources img.now (states img.now) from.now }
    requires carried { Carried img.now (states img.now) on.now }
    ensures { finding_of result ≡ find c6 img.now }
{
    for s in 0..image::states(img) {
        if !k6(img, s, from, on) {
            return Some((s, 0));
        }
    }
    None
}
