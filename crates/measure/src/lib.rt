// Whether the records are one whole tree, how deep it is, and the size of its printout.
#![tactic(auto)]

ghost use Rattle.std.specs.Prelude.{◌≡◌, true, false, List, ℕ, ◌+◌, ◌*◌, ◌<◌, ◌≤◌, length, get_or, MatchOption};
ghost use Rattle.text.specs.Decimal.{decimal};
ghost use Rattle.print.specs.Print.{show, show_each, depth, depths, standing, nothing};
ghost use Rattle.measure.specs.Steps.{Sound, tree_at, trees_before, last_of, bytes_of, leaf_of, height_after, height_of, up_by, Measures, measured};

pub const RECORD_WORDS: usize = 4;

// The word at a place.
pub fn word(tree: &[u16], i: usize) -> usize
    requires { i < length tree.now }
    ensures { result ≡ get_or tree.now i 0 }
{
    usize::from(tree[i])
}

// The bytes of the leaf that is record n.
pub fn leaf_bytes<'a>(text: &'a [u8], tree: &[u16], n: usize) -> &'a [u8]
    requires { n * 4 + 4 ≤ length tree.now }
    ensures { result.now ≡ bytes_of text.now tree.now n }
{
    let i = n * RECORD_WORDS;
    parse::leaf(text, tree[i], tree[i + 1], tree[i + 2], tree[i + 3])
}

// How many trees stand after one record more, unless it is wrong.
#[tactic(auto, unfolding(crate::specs::Steps::height_after))]
fn height_after(first: usize, third: usize, height: usize) -> Option<usize>
    requires { height < 4611686018427387904 }
    ensures { MatchOption result (height_after first third height ≡ 0) (λ h. (h ≡ height_after first third height) × (0 < h)) }
{
    if first == 0 {
        return None;
    }
    if first < pack::image::FIRST_NONTERMINAL {
        return Some(height + 1);
    }
    if height < third {
        return None;
    }
    Some(height - third + 1)
}

// How many trees stand after all the records, unless one of them is wrong, or words are left over.
pub fn height(tree: &[u16]) -> Option<usize>
    ensures { (text : List ℕ) → MatchOption result ((standing text tree.now nothing).sound ≡ false) (λ h. ((standing text tree.now nothing).sound ≡ true) × (h ≡ height_of (standing text tree.now nothing))) }
{
    let n = tree.len() / RECORD_WORDS;
    if n * RECORD_WORDS < tree.len() {
        return None;
    }
    let mut h: usize = 0;
    for i in 0..n {
        let at = i * RECORD_WORDS;
        h = height_after(word(tree, at), word(tree, at + 2), h)?;
    }
    Some(h)
}

// A sum, or the greatest number where it would be larger.
fn plus(a: usize, b: usize) -> usize
    ensures { result ≡ up_by a b }
{
    a.saturating_add(b)
}

// The size so far with the digits of a number.
fn with_number(size: usize, n: usize) -> usize
    ensures { result ≡ up_by size (length (decimal n)) }
{
    if n < 10 {
        return plus(size, 1);
    }
    with_number(plus(size, 1), n / 10)
}

// The size so far with the leaf that is record n.
fn with_leaf(text: &[u8], tree: &[u16], n: usize, size: usize) -> usize
    requires { n * 4 + 4 ≤ length tree.now }
    ensures { result ≡ up_by size (length (show (leaf_of text.now tree.now n))) }
{
    let bytes = escape::bytes_size(leaf_bytes(text, tree, n));
    let number = word(tree, n * RECORD_WORDS);
    plus(with_number(plus(size, bytes), number), 3)
}

// Trees that were measured: how many records are before them, and the size so far with them.
#[derive(Clone, Copy)]
pub struct Measure {
    pub left: usize,
    pub size: usize,
}

// Trees that have more levels of nodes than they may.
#[derive(Clone, Copy)]
pub struct TooDeep;

// The tree that ends with record n.
#[cycle(measure_children_measure_node)]
pub fn measure_node(
    text: &[u8],
    tree: &[u16],
    n: usize,
    levels: usize,
    size: usize,
) -> Result<Measure, TooDeep>
    requires { Sound text.now tree.now (n + 1) }
    ensures { Measures text.now tree.now n levels size (show (tree_at text.now tree.now n)) (depth (tree_at text.now tree.now n)) (trees_before text.now tree.now n) (measured result) }
{
    let i = n * RECORD_WORDS;
    if word(tree, i) < pack::image::FIRST_NONTERMINAL {
        return Ok(Measure {
            left: n,
            size: with_leaf(text, tree, n, size),
        });
    }
    if levels == 0 {
        return Err(TooDeep);
    }
    let head = plus(with_number(size, word(tree, i + 1)), 2);
    measure_children(text, tree, n, word(tree, i + 2), levels - 1, head)
}

// The last k trees that stand after n records, each with a blank.
#[cycle(measure_children_measure_node)]
fn measure_children(
    text: &[u8],
    tree: &[u16],
    n: usize,
    k: usize,
    levels: usize,
    size: usize,
) -> Result<Measure, TooDeep>
    requires sound { Sound text.now tree.now n }
    requires enough_trees { (last_of text.now tree.now n k).enough ≡ true }
    ensures { Measures text.now tree.now n levels size (show_each (last_of text.now tree.now n k).children) (depths (last_of text.now tree.now n k).children) (last_of text.now tree.now n k).rest (measured result) }
{
    let mut left = n;
    let mut total = size;
    for _children in (0..k).rev() {
        let m = measure_node(text, tree, left - 1, levels, total)?;
        left = m.left;
        total = plus(m.size, 1);
    }
    Ok(Measure { left, size: total })
}
