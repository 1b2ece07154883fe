// Where the entries of an image stand.
#![tactic(auto)]

pub mod starts; // starts.rt: where each table begins

ghost use Rattle.std.specs.Prelude.{◌≡◌, ◌+◌, ◌*◌, ◌<◌, ◌≤◌, length};
ghost use Rattle.words.specs.Image.{set_words, most_symbols, production_words, range_words, scan_words, group_words, terminals, nonterminals, productions, states, scan_states, classes, ranges, groups, most_terminals, dom_at, prod_at, len_at, symbol_at, act_at, goto_at, range_at, hi_at, range_class_at, move_at, scan_at, rej_at, poss_at, group_at, chosen_at};
ghost use Rattle.words.specs.Laid.{Laid};

use starts::{act_start, class_start, goto_start, group_start, move_start, prod_start, scan_start};
use words::{
    DOM_START, GROUP_WORDS, PRODUCTION_WORDS, RANGE_WORDS, SCAN_WORDS, SET_WORDS, classes,
    nonterminals, terminals,
};

// Where the entries stand. What is given back is within the image with all that belongs to it.
pub fn dom_at(t: usize) -> usize
    requires { t < most_terminals }
    ensures { result ≡ dom_at t }
{
    DOM_START + t * SET_WORDS
}

pub fn prod_at(img: &[u16], p: usize) -> usize
    requires laid { Laid img.now }
    requires p_bound { p < productions img.now }
    ensures { (result ≡ prod_at img.now p) × (result + production_words ≤ length img.now) }
{
    prod_start(img) + p * PRODUCTION_WORDS
}

pub fn len_at(img: &[u16], p: usize) -> usize
    requires laid { Laid img.now }
    requires p_bound { p < productions img.now }
    ensures { (result ≡ len_at img.now p) × (result < length img.now) }
{
    prod_at(img, p) + 1
}

pub fn symbol_at(img: &[u16], p: usize, i: usize) -> usize
    requires laid { Laid img.now }
    requires p_bound { (p < productions img.now) × (i < most_symbols) }
    ensures { (result ≡ symbol_at img.now p i) × (result < length img.now) }
{
    prod_at(img, p) + 2 + i
}

// The place of a row and a column in a table.
fn cell_at(img: &[u16], start: usize, width: usize, row: usize, column: usize) -> usize
    requires { start + (row * width + column) < length img.now }
    ensures { (result ≡ start + (row * width + column)) × (result < length img.now) }
{
    start + (row * width + column)
}

pub fn act_at(img: &[u16], s: usize, t: usize) -> usize
    requires laid { Laid img.now }
    requires s_bound { (s < states img.now) × (t < terminals img.now) }
    ensures { (result ≡ act_at img.now s t) × (result < length img.now) }
{
    cell_at(img, act_start(img), terminals(img), s, t)
}

pub fn goto_at(img: &[u16], s: usize, n: usize) -> usize
    requires laid { Laid img.now }
    requires s_bound { (s < states img.now) × (n < nonterminals img.now) }
    ensures { (result ≡ goto_at img.now s n) × (result < length img.now) }
{
    cell_at(img, goto_start(img), nonterminals(img), s, n)
}

pub fn range_at(img: &[u16], r: usize) -> usize
    requires laid { Laid img.now }
    requires r_bound { r < ranges img.now }
    ensures { (result ≡ range_at img.now r) × (result + range_words ≤ length img.now) }
{
    class_start(img) + r * RANGE_WORDS
}

pub fn hi_at(img: &[u16], r: usize) -> usize
    requires laid { Laid img.now }
    requires r_bound { r < ranges img.now }
    ensures { (result ≡ hi_at img.now r) × (result < length img.now) }
{
    range_at(img, r) + 1
}

pub fn range_class_at(img: &[u16], r: usize) -> usize
    requires laid { Laid img.now }
    requires r_bound { r < ranges img.now }
    ensures { (result ≡ range_class_at img.now r) × (result < length img.now) }
{
    range_at(img, r) + 2
}

pub fn move_at(img: &[u16], q: usize, c: usize) -> usize
    requires laid { Laid img.now }
    requires q_bound { (q < scan_states img.now) × (c < classes img.now) }
    ensures { (result ≡ move_at img.now q c) × (result < length img.now) }
{
    cell_at(img, move_start(img), classes(img), q, c)
}

pub fn scan_at(img: &[u16], q: usize) -> usize
    requires laid { Laid img.now }
    requires q_bound { q < scan_states img.now }
    ensures { (result ≡ scan_at img.now q) × (result + scan_words ≤ length img.now) }
{
    scan_start(img) + q * SCAN_WORDS
}

pub fn rej_at(img: &[u16], q: usize) -> usize
    requires laid { Laid img.now }
    requires q_bound { q < scan_states img.now }
    ensures { (result ≡ rej_at img.now q) × (result + set_words ≤ length img.now) }
{
    scan_at(img, q) + SET_WORDS
}

pub fn poss_at(img: &[u16], q: usize) -> usize
    requires laid { Laid img.now }
    requires q_bound { q < scan_states img.now }
    ensures { (result ≡ poss_at img.now q) × (result + set_words ≤ length img.now) }
{
    scan_at(img, q) + 2 * SET_WORDS
}

pub fn group_at(img: &[u16], g: usize) -> usize
    requires laid { Laid img.now }
    requires g_bound { g < groups img.now }
    ensures { (result ≡ group_at img.now g) × (result + group_words ≤ length img.now) }
{
    group_start(img) + g * GROUP_WORDS
}

pub fn chosen_at(img: &[u16], g: usize) -> usize
    requires laid { Laid img.now }
    requires g_bound { g < groups img.now }
    ensures { (result ≡ chosen_at img.now g) × (result < length img.now) }
{
    group_at(img, g) + SET_WORDS
}
