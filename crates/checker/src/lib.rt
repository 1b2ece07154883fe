// The check of a pack: shape, then the conditions K1 to K6.
#![tactic(auto)]

ghost use Rattle.std.specs.Prelude.{◌≡◌, [], ◌∷◌, MatchResult, Err};
ghost use Rattle.pack.specs.Image.{states};
ghost use Rattle.pack.specs.Laid.{Laid};
ghost use Rattle.numbers.specs.Verdicts.{Good};
ghost use Rattle.shape.specs.Shape.{shape};
ghost use Rattle.conditions.specs.declared.Checked.{Checked};
ghost use Rattle.conditions.specs.Check.{Holds, finding_of, c4, c5, c6, plain, report, first_failing, check};
ghost use Rattle.conditions.specs.Failing.{numbers_of};
ghost use Rattle.edges.specs.Tables.{Sources, Carried, Goers};

use conditions::{Checked, Failing};
use edges::rows::NumberSet;
use numbers::WrongWord;

// A condition by its number holds, or it fails at these places.
#[tactic(auto, unfolding(conditions::specs::Check::finding_of, conditions::specs::Check::report))]
fn holds(number: usize, places: Option<(usize, usize)>) -> Result<(), Failing>
    ensures { MatchResult result (λ _. finding_of places ≡ Holds) (λ e. (after : Checked) → numbers_of (Err e) ≡ report number (finding_of places) after) }
{
    match places {
        Some((first, second)) => Err(Failing::Condition {
            number,
            first,
            second,
        }),
        None => Ok(()),
    }
}

// K4 to K6, over the edges.
fn walk_edges(
    img: &[u16],
    from: &[NumberSet; 128],
    on: &[NumberSet; 128],
    goes: &[NumberSet; 128],
) -> Result<(), Failing>
    requires laid { Laid img.now }
    requires good_shape { shape img.now ≡ Good }
    requires edge_tables { (Sources img.now (states img.now) from.now) × (Carried img.now (states img.now) on.now) }
    requires goers { Goers img.now (states img.now) goes.now }
    ensures { numbers_of result ≡ first_failing img.now (c4 ∷ c5 ∷ c6 ∷ []) }
{
    holds(4, edgecheck::find_k4(img, on))?;
    holds(5, backcheck::find_k5(img, from, on, goes))?;
    holds(6, edgecheck::find_k6(img, from, on))
}

// K4 to K6: the edges are worked out once.
fn parser_conditions(img: &[u16]) -> Result<(), Failing>
    requires laid { Laid img.now }
    requires good_shape { shape img.now ≡ Good }
    ensures { numbers_of result ≡ first_failing img.now (c4 ∷ c5 ∷ c6 ∷ []) }
{
    let mut from = [NumberSet::EMPTY; 128];
    let mut on = [NumberSet::EMPTY; 128];
    let mut goes = [NumberSet::EMPTY; 128];
    edges::fill(img, &mut from, &mut on, &mut goes);
    walk_edges(img, &from, &on, &goes)
}

// K1 to K6.
fn conditions(img: &[u16]) -> Result<(), Failing>
    requires laid { Laid img.now }
    requires good_shape { shape img.now ≡ Good }
    ensures { numbers_of result ≡ first_failing img.now plain }
{
    holds(1, rankcheck::find_k1(img))?;
    holds(2, posscheck::find_k2(img))?;
    holds(3, groupcheck::find_k3(img))?;
    parser_conditions(img)
}

// Shape, then the conditions.
fn outcome(img: &[u16]) -> Result<(), Failing>
    ensures { numbers_of result ≡ check img.now }
{
    match shape::shape(img) {
        Err(WrongWord(place)) => Err(Failing::Word(place)),
        Ok(()) => conditions(img),
    }
}

// The check of any words, as the manual's numbers.
pub fn check(img: &[u16]) -> Checked
    ensures { result ≡ check img.now }
{
    Checked::from(outcome(img))
}
