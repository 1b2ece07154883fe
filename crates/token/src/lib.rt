// The terminal of a match: one stands for itself, and several for the chosen terminal of their group. Inner functions: their callers have
// tested the shape.
#![tactic(auto)]

ghost use Rattle.std.specs.Prelude.{◌≡◌, ◌<◌, IfSome};
ghost use Rattle.numbers.specs.Verdicts.{Good};
ghost use Rattle.pack.specs.Image.{terminals};
ghost use Rattle.pack.specs.Laid.{Laid};
ghost use Rattle.shape.specs.Shape.{shape};
ghost use Rattle.sets.specs.Sets.{lowest};
ghost use Rattle.scan.specs.Token.{chosen_of, terminal_of};
ghost use Rattle.scan.specs.Found.{one_more};
ghost use Rattle.token.specs.Terms.{Terms};

use pack::image;

// The least terminal of a set that is not empty.
pub fn least(img: &[u16], set: u64) -> usize
    requires { (set ≡ 0 → ⊥) × Terms img.now set }
    ensures { (result ≡ lowest set) × (result < terminals img.now) }
{
    sets::lowest(set) as usize
}

// The chosen terminal of the group whose set this is, where there is one.
#[tactic(auto, using(crate::proofs::Laws::chosen_none, crate::proofs::Laws::chosen_hit, crate::proofs::Laws::chosen_on, crate::proofs::Laws::chosen_small))]
fn chosen_of(img: &[u16], set: u64) -> Option<usize>
    requires laid { Laid img.now }
    requires good_shape { shape img.now ≡ Good }
    requires terms { Terms img.now set }
    ensures value { one_more result ≡ chosen_of img.now set }
    ensures small { IfSome result (λ t. t < terminals img.now) }
{
    for g in 0..image::groups(img) {
        if image::group_set(img, g) == set {
            return Some(image::chosen(img, g));
        }
    }
    None
}

// The terminal that a set stands for, where it is one terminal or the set of a group.
#[tactic(auto, unfolding(scan::specs::Token::terminal_of))]
pub fn terminal_of(img: &[u16], set: u64) -> Option<usize>
    requires laid { Laid img.now }
    requires good_shape { shape img.now ≡ Good }
    requires some_terms { (set ≡ 0 → ⊥) × Terms img.now set }
    ensures value { one_more result ≡ terminal_of img.now set }
    ensures small { IfSome result (λ t. t < terminals img.now) }
{
    if sets::several(set) {
        return chosen_of(img, set);
    }
    Some(least(img, set))
}
