// Each number of the image by its name. The functions are inner ones: they ask for an image that is laid out as its sizes say. Passed on: the
// words and sizes, and the places.
ghost use Rattle.std.specs.Prelude.{◌≡◌, ◌+◌, ◌<◌};
ghost use Rattle.words.specs.Image.{most_symbols, terminals, nonterminals, productions, states, scan_states, classes, ranges, groups, most_terminals, layout, dom, lhs, len, symbol, act, goto, move, lo, hi, range_class, acc, rej, poss, group_set, chosen, valid_set};
ghost use Rattle.words.specs.Laid.{Laid};
ghost use Rattle.sets.specs.Sets.{single};

pub use places::starts::{
    act_start, class_start, goto_start, group_start, move_start, needed, prod_start, scan_start,
};
pub use places::{
    act_at, chosen_at, dom_at, goto_at, group_at, hi_at, len_at, move_at, poss_at, prod_at,
    range_at, range_class_at, rej_at, scan_at, symbol_at,
};
pub use words::{
    BYTE_COUNT, DOM_START, FIRST_NONTERMINAL, GREATEST_BYTE, GROUP_WORDS, HEAD_WORDS,
    LARGEST_IMAGE, LAYOUT_AT, MOST_CLASSES, MOST_GROUPS, MOST_NONTERMINALS, MOST_PARSE_STATES,
    MOST_PRODUCTIONS, MOST_RANGES, MOST_SCAN_STATES, MOST_SYMBOLS, MOST_TERMINALS,
    PRODUCTION_WORDS, RANGE_WORDS, SCAN_WORDS, SET_WORDS, SIZE_WORDS, classes, greatest_size,
    groups, least_size, nonterminals, productions, ranges, scan_states, set_at, states, terminals,
    word_at,
};

// What stands there.
#[tactic(auto, unfolding(words::specs::Image::layout))]
pub fn layout(img: &[u16]) -> u64
    requires { Laid img.now }
    ensures { result ≡ layout img.now }
{
    set_at(img, LAYOUT_AT)
}

#[tactic(auto, unfolding(words::specs::Image::dom))]
pub fn dom(img: &[u16], t: usize) -> u64
    requires laid { Laid img.now }
    requires t_bound { t < terminals img.now }
    ensures { result ≡ dom img.now t }
{
    set_at(img, dom_at(t))
}

#[tactic(auto, unfolding(words::specs::Image::lhs))]
pub fn lhs(img: &[u16], p: usize) -> usize
    requires laid { Laid img.now }
    requires p_bound { p < productions img.now }
    ensures { result ≡ lhs img.now p }
{
    word_at(img, prod_at(img, p))
}

#[tactic(auto, unfolding(words::specs::Image::len))]
pub fn len(img: &[u16], p: usize) -> usize
    requires laid { Laid img.now }
    requires p_bound { p < productions img.now }
    ensures { result ≡ len img.now p }
{
    word_at(img, len_at(img, p))
}

#[tactic(auto, unfolding(words::specs::Image::symbol))]
pub fn symbol(img: &[u16], p: usize, i: usize) -> usize
    requires laid { Laid img.now }
    requires p_bound { (p < productions img.now) × (i < most_symbols) }
    ensures { result ≡ symbol img.now p i }
{
    word_at(img, symbol_at(img, p, i))
}

#[tactic(auto, unfolding(words::specs::Image::act))]
pub fn act(img: &[u16], s: usize, t: usize) -> usize
    requires laid { Laid img.now }
    requires s_bound { (s < states img.now) × (t < terminals img.now) }
    ensures { result ≡ act img.now s t }
{
    word_at(img, act_at(img, s, t))
}

#[tactic(auto, unfolding(words::specs::Image::goto))]
pub fn goto(img: &[u16], s: usize, n: usize) -> usize
    requires laid { Laid img.now }
    requires s_bound { (s < states img.now) × (n < nonterminals img.now) }
    ensures { result ≡ goto img.now s n }
{
    word_at(img, goto_at(img, s, n))
}

#[tactic(auto, unfolding(words::specs::Image::lo))]
pub fn lo(img: &[u16], r: usize) -> usize
    requires laid { Laid img.now }
    requires r_bound { r < ranges img.now }
    ensures { result ≡ lo img.now r }
{
    word_at(img, range_at(img, r))
}

#[tactic(auto, unfolding(words::specs::Image::hi))]
pub fn hi(img: &[u16], r: usize) -> usize
    requires laid { Laid img.now }
    requires r_bound { r < ranges img.now }
    ensures { result ≡ hi img.now r }
{
    word_at(img, hi_at(img, r))
}

#[tactic(auto, unfolding(words::specs::Image::range_class))]
pub fn range_class(img: &[u16], r: usize) -> usize
    requires laid { Laid img.now }
    requires r_bound { r < ranges img.now }
    ensures { result ≡ range_class img.now r }
{
    word_at(img, range_class_at(img, r))
}

pub fn move_of(img: &[u16], q: usize, c: usize) -> usize
    requires laid { Laid img.now }
    requires q_bound { (q < scan_states img.now) × (c < classes img.now) }
    ensures { result ≡ move img.now q c }
{
    word_at(img, move_at(img, q, c))
}

#[tactic(auto, unfolding(words::specs::Image::acc))]
pub fn acc(img: &[u16], q: usize) -> u64
    requires laid { Laid img.now }
    requires q_bound { q < scan_states img.now }
    ensures { result ≡ acc img.now q }
{
    set_at(img, scan_at(img, q))
}

#[tactic(auto, unfolding(words::specs::Image::rej))]
pub fn rej(img: &[u16], q: usize) -> u64
    requires laid { Laid img.now }
    requires q_bound { q < scan_states img.now }
    ensures { result ≡ rej img.now q }
{
    set_at(img, rej_at(img, q))
}

#[tactic(auto, unfolding(words::specs::Image::poss))]
pub fn poss(img: &[u16], q: usize) -> u64
    requires laid { Laid img.now }
    requires q_bound { q < scan_states img.now }
    ensures { result ≡ poss img.now q }
{
    set_at(img, poss_at(img, q))
}

#[tactic(auto, unfolding(words::specs::Image::group_set))]
pub fn group_set(img: &[u16], g: usize) -> u64
    requires laid { Laid img.now }
    requires g_bound { g < groups img.now }
    ensures { result ≡ group_set img.now g }
{
    set_at(img, group_at(img, g))
}

#[tactic(auto, unfolding(words::specs::Image::chosen))]
pub fn chosen(img: &[u16], g: usize) -> usize
    requires laid { Laid img.now }
    requires g_bound { g < groups img.now }
    ensures { result ≡ chosen img.now g }
{
    word_at(img, chosen_at(img, g))
}

// The set with terminal t, where its cell is not 0.
fn with(set: u64, cell: usize, t: usize) -> u64
    requires { (t < most_terminals) × (single t + set < 18446744073709551616) }
    ensures { (cell ≡ 0 → result ≡ set) × ((cell ≡ 0 → ⊥) → result ≡ single t + set) }
{
    if cell == 0 {
        return set;
    }
    set + (1u64 << t)
}

// The terminals with a cell that is not 0 in the row of parse state s.
#[tactic(auto, using(crate::proofs::Valid::valid_fits))]
pub fn valid_set(img: &[u16], s: usize) -> u64
    requires laid { Laid img.now }
    requires s_bound { s < states img.now }
    ensures { result ≡ valid_set img.now s }
{
    let mut set: u64 = 0;
    for t in 0..terminals(img) {
        set = with(set, act(img, s, t), t);
    }
    set
}
