// The edges of the parser's tables, and what else the check works out once for a pack: rows of sets.
#![tactic(auto)]

ghost use Rattle.std.specs.Prelude.{◌≡◌, ℕ, ◌+◌, ◌<◌};
ghost use Rattle.pack.specs.Image.{nonterminals, states, goto};
ghost use Rattle.pack.specs.Laid.{Laid};
ghost use Rattle.numbers.specs.Verdicts.{Good};
ghost use Rattle.shape.specs.Shape.{shape};
ghost use Rattle.conditions.specs.Edges.{symbols, shift_of, edge_to};
ghost use Rattle.conditions.specs.Conditions.{reduces};
ghost use Rattle.edges.specs.Rows.{cell_of, PutOne, PutEach, Whole};
ghost use Rattle.edges.specs.Tables.{reduce_of, present, Sources, Carried, Goers};

use pack::image;
use rows::NumberSet;

pub mod rows; // rows.rt: sets of numbers below 128, and rows of them

// The state that a code shifts to.
#[tactic(auto, unfolding(crate::specs::Rows::cell_of, conditions::specs::Edges::shift_of))]
fn shift_of(code: usize) -> Option<usize>
    ensures { cell_of result ≡ shift_of code }
{
    if code % 2 == 0 {
        return (code / 2).checked_sub(1);
    }
    None
}

// The production that a code reduces by.
#[tactic(auto, unfolding(crate::specs::Rows::cell_of, crate::specs::Tables::reduce_of))]
fn reduce_of(code: usize) -> Option<usize>
    ensures { cell_of result ≡ reduce_of code }
{
    if code % 2 == 0 {
        return None;
    }
    (code / 2).checked_sub(1)
}

// The nonterminal of a goto that is there.
#[tactic(auto, unfolding(crate::specs::Rows::cell_of, crate::specs::Tables::present))]
fn present(cell: usize, a: usize) -> Option<usize>
    ensures { cell_of result ≡ present cell a }
{
    if cell == 0 {
        return None;
    }
    Some(a)
}

// The state that a goto leads to.
#[tactic(auto, unfolding(crate::specs::Rows::cell_of))]
fn goto_of(cell: usize) -> Option<usize>
    ensures { cell_of result ≡ cell }
{
    cell.checked_sub(1)
}

// The edges from one state: where they come from, and what is on them.
fn put_edges(img: &[u16], s: usize, from: &mut [NumberSet; 128], on: &mut [NumberSet; 128])
    requires laid { Laid img.now }
    requires good_shape { shape img.now ≡ Good }
    requires s_bound { s < states img.now }
    ensures { (PutOne (edge_to img.now s) s (symbols img.now) from.old from.new) × (PutEach (edge_to img.now s) (symbols img.now) on.old on.new) }
{
    let here = NumberSet::of(s);
    'shifts: for t in 0..image::terminals(img) {
        let to = shift_of(image::act(img, s, t));
        rows::put_one(from, to, here);
        rows::put_one(on, to, NumberSet::of_low(t));
    }
    let end = image::FIRST_NONTERMINAL + image::nonterminals(img);
    'gotos: for x in image::FIRST_NONTERMINAL..end {
        let a = x - image::FIRST_NONTERMINAL;
        let to = goto_of(image::goto(img, s, a));
        rows::put_one(from, to, here);
        rows::put_one(on, to, NumberSet::of_high(a));
    }
}

// The productions that the row of one state reduces by.
pub fn reductions(img: &[u16], s: usize) -> NumberSet
    requires laid { Laid img.now }
    requires s_bound { s < states img.now }
    ensures { Whole (reduces img.now s) result }
{
    let mut by = NumberSet::EMPTY;
    for t in 0..image::terminals(img) {
        by = by.with(reduce_of(image::act(img, s, t)));
    }
    by
}

// The nonterminals that one state has a goto on.
fn put_gotos(img: &[u16], s: usize, goes: &mut [NumberSet; 128])
    requires laid { Laid img.now }
    requires s_bound { s < states img.now }
    ensures { PutOne (λ (a : ℕ). present (goto img.now s a) a) s (nonterminals img.now) goes.old goes.new }
{
    let here = NumberSet::of(s);
    for a in 0..image::nonterminals(img) {
        rows::put_one(goes, present(image::goto(img, s, a), a), here);
    }
}

// What is worked out once for a pack, put into empty rows.
pub fn fill(
    img: &[u16],
    from: &mut [NumberSet; 128],
    on: &mut [NumberSet; 128],
    goes: &mut [NumberSet; 128],
)
    requires laid { Laid img.now }
    requires good_shape { shape img.now ≡ Good }
    requires edge_tables { (Sources img.now 0 from.old) × ((Carried img.now 0 on.old) × (Goers img.now 0 goes.old)) }
    ensures { (Sources img.now (states img.now) from.new) × ((Carried img.now (states img.now) on.new) × (Goers img.now (states img.now) goes.new)) }
{
    for s in 0..image::states(img) {
        put_edges(img, s, from, on);
        put_gotos(img, s, goes);
    }
}
