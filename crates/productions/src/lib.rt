// A quick pass over the productions where many of them are long: all their words are one run. It says only whether all is well: where it
// says no, the exact walk of crate `exact` gives the place. Inner functions: they ask for an image that is laid out as its sizes say.
#![tactic(auto)]

ghost use Rattle.std.specs.Prelude.{◌≡◌, true, ℕ, ◌+◌, ◌-◌, ◌<◌, ◌≤◌, min, length, get_or};
ghost use Rattle.pack.specs.Image.{set_words, most_symbols, productions, layout, symbol};
ghost use Rattle.pack.specs.Laid.{Laid};
ghost use Rattle.numbers.specs.Verdicts.{Good};
ghost use Rattle.order.specs.Quick.{sum};
ghost use Rattle.order.specs.Shape.{each, prod_rule};
ghost use Rattle.productions.specs.Flat.{past, no_terminal, no_symbol, allowed, Head, Heads, Covers};

use pack::image;

// So many productions pay for the pass.
const MANY: usize = 32;

// The bits of a word.
const WORD_BITS: usize = 16;

// The number of nonterminal 0 among the symbols.
const FIRST_NONTERMINAL: u16 = image::FIRST_NONTERMINAL as u16;

// The symbol from which the last set is read.
pub const LAST_SET: usize = image::MOST_SYMBOLS - image::SET_WORDS;

// The symbol from which a set is read, so that it ends with the symbols at the latest.
fn last_set(i: usize) -> usize
    ensures { result ≡ min i (most_symbols - set_words) }
{
    i.min(LAST_SET)
}

// The unused symbols of a production, joined; where they begin within the last four, with the used ones of these in the lowest bits. They are read as
// sets, four at a time and some of them twice, so that there is no loop whose end the machine would have to foresee.
pub fn joined(img: &[u16], p: usize, used: usize) -> u64
    requires laid { Laid img.now }
    requires p_bound { (p < productions img.now) × (used ≤ most_symbols) }
    ensures { Covers img.now p used result }
{
    let first = image::prod_at(img, p) + 2;
    let front = image::set_at(img, first + last_set(used))
        | image::set_at(img, first + last_set(used + image::SET_WORDS));
    let back = image::set_at(img, first + last_set(used + 2 * image::SET_WORDS))
        | image::set_at(img, first + LAST_SET);
    front | back
}

// Whether the unused symbols of a production are 0.
fn unused_right(img: &[u16], p: usize, used: usize) -> bool
    requires laid { Laid img.now }
    requires p_bound { (p < productions img.now) × (used ≤ most_symbols) }
    ensures { result ≡ true → (i : ℕ) → used ≤ i → i < most_symbols → symbol img.now p i ≡ 0 }
{
    used == image::MOST_SYMBOLS
        || joined(img, p, used) >> (WORD_BITS * (used - last_set(used))) == 0
}

// Whether the left side, the length and the unused symbols of a production are right.
fn head_right(img: &[u16], p: usize) -> bool
    requires laid { Laid img.now }
    requires p_bound { p < productions img.now }
    ensures { result ≡ true → Head img.now p }
{
    rules::lhs_right(img, p) && rules::len_right(img, p) && unused_right(img, p, image::len(img, p))
}

// By how much a word is past another, and a large number where it is before it.
#[tactic(auto, unfolding(crate::specs::Flat::past))]
fn past(word: u16, first: u16) -> u16
    ensures { result ≡ past word first }
{
    word.wrapping_sub(first)
}

// 1 where a word is no terminal from 1 to the last, or the one of layout.
#[tactic(auto, unfolding(crate::specs::Flat::no_terminal))]
fn no_terminal(word: u16, last: u16, layout: u16) -> u16
    ensures { (result ≡ no_terminal last layout word) × (result ≤ 1) }
{
    u16::from(word == layout || last <= past(word, 1))
}

// 1 where it is no nonterminal either.
#[tactic(auto, unfolding(crate::specs::Flat::no_symbol))]
fn no_symbol(word: u16, last: u16, n: u16, layout: u16) -> u16
    ensures { (result ≡ no_symbol last n layout word) × (result ≤ 1) }
{
    if past(word, FIRST_NONTERMINAL) < n {
        return 0;
    }
    no_terminal(word, last, layout)
}

// How many words are no symbols.
#[tactic(auto, using(order::proofs::Sums::sum_on), unfolding(order::specs::Quick::sum))]
fn no_symbols(words: &[u16], last: u16, n: u16, layout: u16) -> u16
    requires { length words.now < 65536 }
    ensures { result ≡ sum (λ j. no_symbol last n layout (get_or words.now j 0)) (length words.now) }
{
    let mut many: u16 = 0;
    for word in words {
        many += no_symbol(*word, last, n, layout);
    }
    many
}

// How many words of a production may be no symbols.
#[tactic(auto, unfolding(crate::specs::Flat::allowed))]
fn allowed(img: &[u16], p: usize, last: u16, layout: u16) -> u16
    requires laid { Laid img.now }
    requires p_bound { p < productions img.now }
    requires head { Head img.now p }
    ensures { (result ≡ allowed img.now last layout p) × (result ≤ 16) }
{
    let lhs = no_terminal(image::lhs(img, p) as u16, last, layout);
    let used = image::len(img, p);
    let len = no_terminal(used as u16, last, layout);
    lhs + len + (image::MOST_SYMBOLS - used) as u16
}

// Whether the heads of all productions are right, and so many words of them may be no symbols.
#[tactic(auto, using(order::proofs::Sums::sum_on), unfolding(order::specs::Quick::sum))]
fn heads(img: &[u16], last: u16, layout: u16, most: u16) -> bool
    requires { Laid img.now }
    ensures { result ≡ true → Heads img.now last layout most }
{
    let mut many: u16 = 0;
    for p in 0..image::productions(img) {
        if !head_right(img, p) {
            return false;
        }
        many += allowed(img, p, last, layout);
    }
    most <= many
}

// Whether half of the productions are long, of five symbols or more. Nothing hangs on it but time: short ones are walked faster.
fn long(img: &[u16], n: usize) -> bool
    requires laid { Laid img.now }
    requires n_bound { n ≤ productions img.now }
{
    let mut many: usize = 0;
    for p in 0..n {
        many += usize::from(4 < image::len(img, p));
    }
    n <= 2 * many
}

// Whether all productions are right, if layout is one terminal or none: as many words as are no symbols may be none.
fn flat(img: &[u16], set: u64) -> bool
    requires laid { Laid img.now }
    requires layout_set { set ≡ layout img.now }
    ensures { result ≡ true → each (prod_rule img.now) (productions img.now) 0 ≡ Good }
{
    if sets::several(set) {
        return false;
    }
    let layout = sets::lowest(set) as u16;
    let last = (image::terminals(img) - 1) as u16;
    let n = image::nonterminals(img) as u16;
    let start = image::prod_start(img);
    let end = image::act_start(img);
    let most = no_symbols(&img[start..end], last, n, layout);
    heads(img, last, layout, most)
}

// Whether all productions are right, if they are many and long.
pub fn all_right(img: &[u16]) -> bool
    requires { Laid img.now }
    ensures { result ≡ true → each (prod_rule img.now) (productions img.now) 0 ≡ Good }
{
    let n = image::productions(img);
    MANY <= n && long(img, n) && flat(img, image::layout(img))
}
