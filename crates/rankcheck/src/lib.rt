// K1, the condition on what is rejected: its test, and the search for the first scan state at which it fails.
#![tactic(auto)]

ghost use Rattle.std.specs.Prelude.{◌≡◌, ◌<◌};
ghost use Rattle.pack.specs.Image.{terminals, scan_states};
ghost use Rattle.pack.specs.Laid.{Laid};
ghost use Rattle.conditions.specs.Conditions.{outranked, k1};
ghost use Rattle.conditions.specs.Check.{c1, finding_of, find};

use edges::rows;
use pack::image;

// Whether t is in the set, and something in it outranks t.
#[tactic(auto, unfolding(conditions::specs::Conditions::outranked))]
fn outranked(img: &[u16], m: u64, t: usize) -> bool
    requires laid { Laid img.now }
    requires t_bound { t < terminals img.now }
    ensures { result ≡ outranked img.now m t }
{
    sets::member(m, t) && 1 <= image::dom(img, t) & m
}

// K1 of scan state q: what does not match there is neither rejected nor outranked, and is passed over.
fn k1(img: &[u16], q: usize) -> bool
    requires laid { Laid img.now }
    requires q_bound { q < scan_states img.now }
    ensures { result ≡ k1 img.now q }
{
    let n = image::terminals(img);
    let rej = image::rej(img, q);
    let m = image::acc(img, q) | rej;
    let mut from = 0;
    while let Some(t) = rows::next_in(m, from) {
        if n <= t {
            break;
        }
        if sets::member(rej, t) != outranked(img, m, t) {
            return false;
        }
        from = t + 1;
    }
    true
}

// The first scan state at which K1 fails.
pub fn find_k1(img: &[u16]) -> Option<(usize, usize)>
    requires { Laid img.now }
    ensures { finding_of result ≡ find c1 img.now }
{
    conditions::first_wrong(image::scan_states(img), |q| k1(img, q))
}
