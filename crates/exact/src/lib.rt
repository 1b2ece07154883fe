// The tables of the shape, walked word by word: each function tests an entry, a row or a table. Inner functions: they ask
// for an image that is laid out as its sizes say.
#![tactic(auto)]

ghost use Rattle.std.specs.Prelude.{◌≡◌, ℕ, ◌+◌, ◌-◌, ◌<◌, ◌≤◌, min, length};
ghost use Rattle.pack.specs.Image.{most_symbols, set_words, terminals, productions, states, scan_states, ranges, groups};
ghost use Rattle.pack.specs.Laid.{Laid};
ghost use Rattle.numbers.specs.Verdicts.{Good, verdict_of};
ghost use Rattle.order.specs.declared.Ruled.TheVariants.{Dom, Act, Scan};
ghost use Rattle.order.specs.Rows.{row_rule, rows_of};
ghost use Rattle.order.specs.Shape.{each, layout_rule, dom_rule, symbol_rule, prod_rule, act_rule, cell_rule, goto_rules, range_rule, move_rules, scan_rule, group_rule};

use numbers::WrongWord;
use order::{Ruled, rule};
use pack::image;

// So many words pay for a pass over them.
const SHORT: usize = 16;

#[tactic(auto, unfolding(order::specs::Shape::layout_rule))]
pub fn layout_rule(img: &[u16]) -> Result<(), WrongWord>
    requires { Laid img.now }
    ensures { verdict_of result ≡ layout_rule img.now }
{
    rule(rules::layout_right(img), image::LAYOUT_AT)
}

#[tactic(auto, unfolding(order::specs::Shape::dom_rule))]
fn dom_rule(img: &[u16], t: usize) -> Result<(), WrongWord>
    requires laid { Laid img.now }
    requires t_bound { t < terminals img.now }
    ensures { verdict_of result ≡ dom_rule img.now t }
{
    rule(rules::dom_right(img, t), image::dom_at(t))
}

#[tactic(auto, unfolding(order::specs::Shape::symbol_rule))]
fn symbol_rule(img: &[u16], p: usize, i: usize) -> Result<(), WrongWord>
    requires laid { Laid img.now }
    requires p_bound { (p < productions img.now) × (i < most_symbols) }
    ensures { verdict_of result ≡ symbol_rule img.now p i }
{
    rule(rules::symbol_right(img, p, i), image::symbol_at(img, p, i))
}

// How many symbols of a production have to be looked at: all after them are unused and 0.
fn to_look_at(img: &[u16], p: usize) -> usize
    requires laid { Laid img.now }
    requires p_bound { p < productions img.now }
    ensures { (result ≤ most_symbols) × ((i : ℕ) → result ≤ i → i < most_symbols → symbol_rule img.now p i ≡ Good) }
{
    let used = image::len(img, p);
    if productions::LAST_SET < used {
        return image::MOST_SYMBOLS;
    }
    if productions::joined(img, p, used) == 0 {
        return used;
    }
    image::MOST_SYMBOLS
}

// The symbols of a production, used and unused.
#[tactic(auto, using(order::proofs::Laws::each_wrong, order::proofs::Laws::each_right, order::proofs::Laws::each_rest))]
fn symbols(img: &[u16], p: usize) -> Result<(), WrongWord>
    requires laid { Laid img.now }
    requires p_bound { p < productions img.now }
    ensures { verdict_of result ≡ each (symbol_rule img.now p) most_symbols 0 }
{
    for i in 0..to_look_at(img, p) {
        symbol_rule(img, p, i)?;
    }
    Ok(())
}

#[tactic(auto, using(order::proofs::Laws::then_wrong, order::proofs::Laws::then_good), unfolding(order::specs::Shape::prod_rule))]
fn prod_rule(img: &[u16], p: usize) -> Result<(), WrongWord>
    requires laid { Laid img.now }
    requires p_bound { p < productions img.now }
    ensures { verdict_of result ≡ prod_rule img.now p }
{
    rule(rules::lhs_right(img, p), image::prod_at(img, p))?;
    rule(rules::len_right(img, p), image::len_at(img, p))?;
    symbols(img, p)
}

#[tactic(auto, unfolding(order::specs::Shape::act_rule))]
fn act_rule(img: &[u16], s: usize, t: usize) -> Result<(), WrongWord>
    requires laid { Laid img.now }
    requires s_bound { (s < states img.now) × (t < terminals img.now) }
    ensures { verdict_of result ≡ act_rule img.now s t }
{
    rule(
        rules::act_right(img, t, image::act(img, s, t)),
        image::act_at(img, s, t),
    )
}

#[tactic(auto, using(order::proofs::Laws::each_wrong, order::proofs::Laws::each_right, order::proofs::Laws::each_over))]
fn act_row(img: &[u16], s: usize) -> Result<(), WrongWord>
    requires laid { Laid img.now }
    requires s_bound { s < states img.now }
    ensures { verdict_of result ≡ each (act_rule img.now s) (terminals img.now) 0 }
{
    for t in 0..image::terminals(img) {
        act_rule(img, s, t)?;
    }
    Ok(())
}

#[tactic(auto, using(order::proofs::Laws::then_wrong, order::proofs::Laws::then_good), unfolding(order::specs::Shape::range_rule))]
fn range_rule(img: &[u16], r: usize) -> Result<(), WrongWord>
    requires laid { Laid img.now }
    requires r_bound { r < ranges img.now }
    ensures { verdict_of result ≡ range_rule img.now r }
{
    rule(rules::above_previous(img, r), image::range_at(img, r))?;
    rule(rules::ends_right(img, r), image::hi_at(img, r))?;
    rule(rules::class_right(img, r), image::range_class_at(img, r))
}

#[tactic(auto, using(order::proofs::Laws::then_wrong, order::proofs::Laws::then_good), unfolding(order::specs::Shape::scan_rule))]
fn scan_rule(img: &[u16], q: usize) -> Result<(), WrongWord>
    requires laid { Laid img.now }
    requires q_bound { q < scan_states img.now }
    ensures { verdict_of result ≡ scan_rule img.now q }
{
    rule(rules::acc_right(img, q), image::scan_at(img, q))?;
    rule(rules::rej_right(img, q), image::rej_at(img, q))?;
    rule(rules::poss_right(img, q), image::poss_at(img, q))
}

#[tactic(auto, using(order::proofs::Laws::then_wrong, order::proofs::Laws::then_good), unfolding(order::specs::Shape::group_rule))]
fn group_rule(img: &[u16], g: usize) -> Result<(), WrongWord>
    requires laid { Laid img.now }
    requires g_bound { g < groups img.now }
    ensures { verdict_of result ≡ group_rule img.now g }
{
    rule(rules::group_right(img, g), image::group_at(img, g))?;
    rule(rules::chosen_right(img, g), image::chosen_at(img, g))
}

#[tactic(auto, unfolding(order::specs::Rows::row_rule, order::specs::Rows::rows_of))]
fn row_rule(img: &[u16], table: Ruled, i: usize) -> Result<(), WrongWord>
    requires laid { Laid img.now }
    requires i_bound { i < rows_of img.now table }
    ensures { verdict_of result ≡ row_rule img.now table i }
{
    match table {
        Ruled::Dom => dom_rule(img, i),
        Ruled::Act => act_row(img, i),
        Ruled::Scan => scan_rule(img, i),
    }
}

// The first wrong word of a table from a row on, row by row.
#[tactic(auto, using(order::proofs::Laws::each_wrong, order::proofs::Laws::each_right, order::proofs::Laws::each_over))]
fn rows(img: &[u16], table: Ruled, from: usize, n: usize) -> Result<(), WrongWord>
    requires laid { Laid img.now }
    requires from_le_n { (from ≤ n) × (n ≤ rows_of img.now table) }
    ensures { verdict_of result ≡ each (row_rule img.now table) (n - from) from }
{
    for i in from..n {
        row_rule(img, table, i)?;
    }
    Ok(())
}

// The tables that are walked at once, each by a loop of its own: a short table costs no more than its rows. Only of many long productions there is a
// quick pass.
#[tactic(auto, using(order::proofs::Laws::each_wrong, order::proofs::Laws::each_right, order::proofs::Laws::each_over))]
pub fn prods(img: &[u16]) -> Result<(), WrongWord>
    requires { Laid img.now }
    ensures { verdict_of result ≡ each (prod_rule img.now) (productions img.now) 0 }
{
    if productions::all_right(img) {
        return Ok(());
    }
    for i in 0..image::productions(img) {
        prod_rule(img, i)?;
    }
    Ok(())
}

#[tactic(auto, using(order::proofs::Laws::each_wrong, order::proofs::Laws::each_right, order::proofs::Laws::each_over))]
pub fn classes(img: &[u16]) -> Result<(), WrongWord>
    requires { Laid img.now }
    ensures { verdict_of result ≡ each (range_rule img.now) (ranges img.now) 0 }
{
    for i in 0..image::ranges(img) {
        range_rule(img, i)?;
    }
    Ok(())
}

#[tactic(auto, using(order::proofs::Laws::each_wrong, order::proofs::Laws::each_right, order::proofs::Laws::each_over))]
pub fn groups(img: &[u16]) -> Result<(), WrongWord>
    requires { Laid img.now }
    ensures { verdict_of result ≡ each (group_rule img.now) (groups img.now) 0 }
{
    for i in 0..image::groups(img) {
        group_rule(img, i)?;
    }
    Ok(())
}

// The tables that have a quick pass.
#[tactic(auto, unfolding(order::specs::Rows::rows_of))]
pub fn doms(img: &[u16]) -> Result<(), WrongWord>
    requires { Laid img.now }
    ensures { verdict_of result ≡ each (row_rule img.now Dom) (terminals img.now) 0 }
{
    if quick::doms(img) {
        return Ok(());
    }
    rows(img, Ruled::Dom, 0, image::terminals(img))
}

#[tactic(auto, unfolding(order::specs::Rows::rows_of))]
pub fn scans(img: &[u16]) -> Result<(), WrongWord>
    requires { Laid img.now }
    ensures { verdict_of result ≡ each (row_rule img.now Scan) (scan_states img.now) 0 }
{
    if quick::scans(img) {
        return Ok(());
    }
    rows(img, Ruled::Scan, 0, image::scan_states(img))
}

// So many rows of actions, or none where they may not be right.
#[tactic(auto, unfolding(order::specs::Shape::each))]
fn passed(img: &[u16], from: usize, half: usize) -> usize
    requires laid { Laid img.now }
    requires half_bound { from + half ≤ states img.now }
    ensures { (result ≤ half) × (each (row_rule img.now Act) result from ≡ Good) }
{
    if quick::acts(img, from, half) {
        return half;
    }
    0
}

// A row of actions before which all are right. What may hold the first wrong one is halved, and the first half passed over where it is right: all
// these passes together look at the table once more.
#[tactic(auto, using(order::proofs::Laws::each_pass))]
fn first_row(img: &[u16]) -> usize
    requires { Laid img.now }
    ensures { (result ≤ states img.now) × (each (row_rule img.now Act) (states img.now) 0 ≡ each (row_rule img.now Act) (states img.now - result) result) }
{
    let mut from: usize = 0;
    let mut many = image::states(img);
    while 1 < many {
        let half = many / 2;
        from += passed(img, from, half);
        many -= half;
    }
    from
}

#[tactic(auto, unfolding(order::specs::Rows::rows_of))]
pub fn acts(img: &[u16]) -> Result<(), WrongWord>
    requires { Laid img.now }
    ensures { verdict_of result ≡ each (row_rule img.now Act) (states img.now) 0 }
{
    let n = image::states(img);
    if quick::acts(img, 0, n) {
        return Ok(());
    }
    rows(img, Ruled::Act, first_row(img), n)
}

#[tactic(auto, unfolding(order::specs::Shape::cell_rule))]
fn cell_rule(img: &[u16], most: usize, at: usize) -> Result<(), WrongWord>
    requires { at < length img.now }
    ensures { verdict_of result ≡ cell_rule img.now most at }
{
    rule(image::word_at(img, at) <= most, at)
}

// The first of n words from a place on that is above the most it may be.
#[tactic(auto, using(order::proofs::Laws::each_wrong, order::proofs::Laws::each_right, order::proofs::Laws::each_over))]
fn cells(img: &[u16], start: usize, n: usize, most: usize) -> Result<(), WrongWord>
    requires { (start + n ≤ length img.now) × (most < 65536) }
    ensures { verdict_of result ≡ each (λ i. cell_rule img.now most (start + i)) n 0 }
{
    let end = start + n;
    if SHORT <= n {
        if quick::over(&img[start..end], most as u16) == 0 {
            return Ok(());
        }
    }
    for i in 0..n {
        cell_rule(img, most, start + i)?;
    }
    Ok(())
}

// The goto table, and the move table.
pub fn gotos(img: &[u16]) -> Result<(), WrongWord>
    requires { Laid img.now }
    ensures { verdict_of result ≡ goto_rules img.now }
{
    let n = image::class_start(img) - image::goto_start(img);
    cells(img, image::goto_start(img), n, image::states(img))
}

pub fn moves(img: &[u16]) -> Result<(), WrongWord>
    requires { Laid img.now }
    ensures { verdict_of result ≡ move_rules img.now }
{
    let n = image::scan_start(img) - image::move_start(img);
    cells(img, image::move_start(img), n, image::scan_states(img))
}
