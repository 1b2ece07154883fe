// Quick passes over the tables. Each says only whether all is well: where it says no, the exact walk of crate `exact` gives the place. So a
// pass promises something only where it says yes. Where a table is large its pass has no way out before the end, so that the compiler can
// take many words at once.
#![tactic(auto)]

ghost use Rattle.std.specs.Prelude.{◌≡◌, true, false, ℕ, ◌+◌, ◌-◌, ◌*◌, ◌%◌, ◌<◌, ◌≤◌, length};
ghost use Rattle.sets.specs.Sets.{member, several};
ghost use Rattle.numbers.specs.Verdicts.{Good};
ghost use Rattle.order.specs.declared.Ruled.TheVariants.{Dom, Act, Scan};
ghost use Rattle.pack.specs.Image.{set_words, terminals, states, scan_states, act_start, layout, dom, act};
ghost use Rattle.pack.specs.Laid.{Laid};
ghost use Rattle.order.specs.Quick.{Above, accept, Codes, First, Shut, Parts, Apart};
ghost use Rattle.order.specs.Rows.{row_rule};
ghost use Rattle.order.specs.Shape.{each};

use pack::image;

// No word is above the limit by more.
#[tactic(auto, using(sets::proofs::Laws::or_left, sets::proofs::Laws::or_right))]
pub fn over(words: &[u16], most: u16) -> u16
    ensures { Above words.now (most + result) }
{
    let mut all: u16 = 0;
    for word in words {
        all |= word.saturating_sub(most);
    }
    all
}

// 1 where an action code accepts.
#[tactic(auto, unfolding(order::specs::Quick::accept))]
fn accept(code: u16) -> u16
    ensures { (result ≡ accept code) × (result ≤ 1) }
{
    u16::from(code == 1)
}

// What a pass over action codes tells of them: none is above the greater limit by more than `over`, all are above the lower one by an even number
// where `apart` is even, and `accepts` of them accept.
#[derive(Clone, Copy)]
struct Tally {
    apart: u16,
    over: u16,
    accepts: u16,
}

#[tactic(auto, using(sets::proofs::Laws::or_left, sets::proofs::Laws::or_right, order::proofs::Sound::or_even, order::proofs::Sums::sum_on), unfolding(order::specs::Quick::sum))]
fn codes(words: &[u16], low: u16, most: u16) -> Tally
    requires { length words.now < 65536 }
    ensures { Codes words.now low most result.apart result.over result.accepts }
{
    let mut apart: u16 = 0;
    let mut over: u16 = 0;
    let mut accepts: u16 = 0;
    for code in words {
        apart |= code.saturating_sub(low);
        over |= code.saturating_sub(most);
        accepts += accept(*code);
    }
    Tally {
        apart,
        over,
        accepts,
    }
}

// Whether a code shifts.
fn is_shift(code: u16) -> bool
    ensures { result ≡ false → code % 2 ≡ 0 → code ≡ 0 }
{
    code % 2 == 0 && 0 < code
}

// Whether column 0 has no shift in some rows, and so many accepts.
#[tactic(auto, using(order::proofs::Sound::code_at, order::proofs::Sums::sum_on), unfolding(order::specs::Quick::sum))]
fn first_column(img: &[u16], from: usize, rows: usize, most: u16) -> bool
    requires laid { Laid img.now }
    requires rows_bound { from + rows ≤ states img.now }
    ensures { result ≡ true → First img.now from rows most }
{
    let mut n: u16 = 0;
    for s in 0..rows {
        let code = img[image::act_at(img, from + s, 0)];
        if is_shift(code) {
            return false;
        }
        n += accept(code);
    }
    most <= n
}

// Whether a column has errors only in some rows.
fn empty_column(img: &[u16], from: usize, rows: usize, t: usize) -> bool
    requires laid { Laid img.now }
    requires rows_bound { (from + rows ≤ states img.now) × (t < terminals img.now) }
    ensures { result ≡ true → (s : ℕ) → s < rows → act img.now (from + s) t ≡ 0 }
{
    for s in 0..rows {
        if image::act(img, from + s, t) != 0 {
            return false;
        }
    }
    true
}

// Whether a column has errors only, where it is a layout column.
fn right_column(img: &[u16], from: usize, rows: usize, set: u64, t: usize) -> bool
    requires laid { Laid img.now }
    requires rows_bound { (from + rows ≤ states img.now) × (t < terminals img.now) }
    ensures { result ≡ true → member set t ≡ true → (s : ℕ) → s < rows → act img.now (from + s) t ≡ 0 }
{
    !sets::member(set, t) || empty_column(img, from, rows, t)
}

// Whether each layout column has errors only in some rows, where there is one or none.
#[tactic(auto, using(order::proofs::Sound::only_lowest))]
fn only_column(img: &[u16], from: usize, rows: usize, set: u64) -> bool
    requires laid { Laid img.now }
    requires rows_bound { from + rows ≤ states img.now }
    requires layout_set { set ≡ layout img.now }
    requires one_or_none { several set ≡ false }
    ensures { result ≡ true → Shut img.now from rows }
{
    let t = sets::lowest(set) as usize;
    if t < image::terminals(img) {
        return empty_column(img, from, rows, t);
    }
    true
}

// Whether each layout column has errors only in some rows, however many there are.
fn every_column(img: &[u16], from: usize, rows: usize) -> bool
    requires laid { Laid img.now }
    requires rows_bound { from + rows ≤ states img.now }
    ensures { result ≡ true → Shut img.now from rows }
{
    let set = image::layout(img);
    for t in 0..image::terminals(img) {
        if !right_column(img, from, rows, set, t) {
            return false;
        }
    }
    true
}

// Whether each layout column has errors only in some rows.
fn layout_columns(img: &[u16], from: usize, rows: usize) -> bool
    requires laid { Laid img.now }
    requires rows_bound { from + rows ≤ states img.now }
    ensures { result ≡ true → Shut img.now from rows }
{
    let set = image::layout(img);
    if sets::several(set) {
        return every_column(img, from, rows);
    }
    only_column(img, from, rows, set)
}

// Where a row of actions begins, or the table ends.
fn row_start(img: &[u16], s: usize) -> usize
    requires laid { Laid img.now }
    requires s_bound { s ≤ states img.now }
    ensures { (result ≡ act_start img.now + s * terminals img.now) × (result ≤ length img.now) }
{
    image::act_start(img) + s * image::terminals(img)
}

// Whether every action code is right in some rows, the first of which is given. Up to the lesser of the greatest shift and the greatest reduction
// both kinds are right; above it every second code is, up to the greater one. The accepts are those of column 0 where there are no more.
#[tactic(auto, using(order::proofs::Sound::acts_good))]
pub fn acts(img: &[u16], from: usize, rows: usize) -> bool
    requires laid { Laid img.now }
    requires rows_bound { from + rows ≤ states img.now }
    ensures { result ≡ true → each (row_rule img.now Act) rows from ≡ Good }
{
    let shifts = (image::states(img) * 2) as u16;
    let reductions = (image::productions(img) * 2 + 1) as u16;
    let low = shifts.min(reductions) + 1;
    let most = shifts.max(reductions);
    let start = row_start(img, from);
    let end = row_start(img, from + rows);
    let all = codes(&img[start..end], low, most);
    all.over == 0
        && all.apart % 2 == 0
        && first_column(img, from, rows, all.accepts)
        && layout_columns(img, from, rows)
}

// What is in some of n sets, the first at a place.
#[tactic(auto, using(order::proofs::Sound::part_more, order::proofs::Sound::part_last))]
fn union(img: &[u16], start: usize, n: usize) -> u64
    requires { start + n * set_words ≤ length img.now }
    ensures { Parts img.now start n result }
{
    let mut all: u64 = 0;
    for k in 0..n {
        all |= image::set_at(img, start + k * image::SET_WORDS);
    }
    all
}

// Whether a terminal is in a set: it is not asked whether it can be.
#[tactic(auto, unfolding(sets::specs::Sets::member, sets::specs::Sets::has))]
fn in_set(set: u64, t: usize) -> bool
    requires { t < 64 }
    ensures { result ≡ member set t }
{
    (set >> t) % 2 == 1
}

// Whether no terminal outranks itself.
fn none_itself(img: &[u16]) -> bool
    requires { Laid img.now }
    ensures { result ≡ true → (t : ℕ) → t < terminals img.now → member (dom img.now t) t ≡ false }
{
    for t in 0..image::terminals(img) {
        if in_set(image::dom(img, t), t) {
            return false;
        }
    }
    true
}

// Whether every set of terminals that outrank another is right.
#[tactic(auto, using(order::proofs::Sound::doms_good))]
pub fn doms(img: &[u16]) -> bool
    requires { Laid img.now }
    ensures { result ≡ true → each (row_rule img.now Dom) (terminals img.now) 0 ≡ Good }
{
    rules::fits(img, union(img, image::DOM_START, image::terminals(img)))
        && image::dom(img, 0) == 0
        && none_itself(img)
}

// Whether no scan state accepts what it rejects.
fn all_apart(img: &[u16]) -> bool
    requires { Laid img.now }
    ensures { result ≡ true → Apart img.now }
{
    for q in 0..image::scan_states(img) {
        if image::acc(img, q) & image::rej(img, q) != 0 {
            return false;
        }
    }
    true
}

// Whether the sets of every scan state are right.
#[tactic(auto, using(sets::proofs::Laws::or_empty, order::proofs::Sound::scans_good))]
pub fn scans(img: &[u16]) -> bool
    requires { Laid img.now }
    ensures { result ≡ true → each (row_rule img.now Scan) (scan_states img.now) 0 ≡ Good }
{
    let all = union(img, image::scan_start(img), 3 * image::scan_states(img));
    rules::fits(img, all) && image::acc(img, 0) | image::rej(img, 0) == 0 && all_apart(img)
}
