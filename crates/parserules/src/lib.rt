// The rules of the shape for the sizes, the layout and the parser's tables, each a test of one word or of one set. These are inner functions:
// all but the first ask for an image that is laid out as its sizes say.
#![tactic(auto)]

ghost use Rattle.std.specs.Prelude.{◌≡◌, ◌<◌};
ghost use Rattle.pack.specs.Image.{head_words, most_symbols, terminals, productions, action_of};
ghost use Rattle.pack.specs.Laid.{Laid};
ghost use Rattle.parserules.specs.Rules.{size_right, fits, layout_right, dom_right, lhs_right, len_right, is_symbol, symbol_right, act_right};

use pack::{Action, action_of, image};

// The size at word i is there and within its limits.
pub fn size_right(img: &[u16], i: usize) -> bool
    requires { i < head_words }
    ensures { result ≡ size_right img.now i }
{
    if img.len() <= i {
        return false;
    }
    let size = image::word_at(img, i);
    image::least_size(i) <= size && size <= image::greatest_size(i)
}

// No bit T or above, and no bit 0.
#[tactic(auto, using(sets::proofs::Laws::shifted_away, sets::proofs::Laws::not_shifted_away), unfolding(crate::specs::Rules::fits, sets::specs::Sets::lacks, sets::specs::Sets::has))]
pub fn fits(img: &[u16], set: u64) -> bool
    requires { Laid img.now }
    ensures { result ≡ fits img.now set }
{
    let t = image::terminals(img);
    (t == image::MOST_TERMINALS || set >> t == 0) && set % 2 == 0
}

pub fn layout_right(img: &[u16]) -> bool
    requires { Laid img.now }
    ensures { result ≡ layout_right img.now }
{
    fits(img, image::layout(img))
}

#[tactic(auto, using(sets::proofs::Laws::in_lacks, sets::proofs::Laws::out_lacks), unfolding(crate::specs::Rules::dom_right, sets::specs::Sets::is_empty))]
pub fn dom_right(img: &[u16], t: usize) -> bool
    requires laid { Laid img.now }
    requires t_bound { t < terminals img.now }
    ensures { result ≡ dom_right img.now t }
{
    let set = image::dom(img, t);
    if t == 0 {
        return set == 0;
    }
    fits(img, set) && !sets::member(set, t)
}

pub fn lhs_right(img: &[u16], p: usize) -> bool
    requires laid { Laid img.now }
    requires p_bound { p < productions img.now }
    ensures { result ≡ lhs_right img.now p }
{
    image::lhs(img, p) < image::nonterminals(img)
}

pub fn len_right(img: &[u16], p: usize) -> bool
    requires laid { Laid img.now }
    requires p_bound { p < productions img.now }
    ensures { result ≡ len_right img.now p }
{
    image::len(img, p) <= image::MOST_SYMBOLS
}

// A terminal 1..T-1 outside layout, or a nonterminal.
#[tactic(auto, using(sets::proofs::Laws::in_lacks, sets::proofs::Laws::out_lacks), unfolding(crate::specs::Rules::is_symbol))]
fn is_symbol(img: &[u16], x: usize) -> bool
    requires { Laid img.now }
    ensures { result ≡ is_symbol img.now x }
{
    if x < image::terminals(img) {
        return 1 <= x && !sets::member(image::layout(img), x);
    }
    image::FIRST_NONTERMINAL <= x && x < image::FIRST_NONTERMINAL + image::nonterminals(img)
}

pub fn symbol_right(img: &[u16], p: usize, i: usize) -> bool
    requires laid { Laid img.now }
    requires p_bound { (p < productions img.now) × (i < most_symbols) }
    ensures { result ≡ symbol_right img.now p i }
{
    let x = image::symbol(img, p, i);
    if i < image::len(img, p) {
        return is_symbol(img, x);
    }
    x == 0
}

// The action of a code in column t names what exists, and stands where it may.
#[tactic(auto, using(sets::proofs::Laws::in_lacks, sets::proofs::Laws::out_lacks), unfolding(crate::specs::Rules::act_right))]
pub fn act_right(img: &[u16], t: usize, code: usize) -> bool
    requires { Laid img.now }
    ensures { result ≡ act_right img.now t (action_of code) }
{
    match action_of(code) {
        Action::Error => true,
        Action::Accept => t == 0,
        Action::Shift(s) => {
            !sets::member(image::layout(img), t) && 1 <= t && s < image::states(img)
        }
        Action::Reduce(p) => !sets::member(image::layout(img), t) && p < image::productions(img),
    }
}
