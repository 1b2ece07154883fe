// The words of an image: how many a thing takes, a word and a set at a place, the sizes, and what an action code says.
#![tactic(auto)]

ghost use Rattle.std.specs.Prelude.{◌≡◌, ◌+◌, ◌*◌, ◌<◌, ◌≤◌, length};
ghost use Rattle.words.specs.Image.{action_of, word, set_words, head_words, set_at, terminals, nonterminals, productions, states, scan_states, classes, ranges, groups, least_size, greatest_size};

// What a cell of the action table asks for.
#[derive(Clone, Copy)]
pub enum Action {
    Error,
    Accept,
    Shift(usize),
    Reduce(usize),
}

// What an action code asks for: 0 error, 1 accept, 2+2s shift to s, 3+2p reduce by p.
#[tactic(auto, unfolding(crate::specs::Image::action_of))]
pub fn action_of(code: usize) -> Action
    ensures { result ≡ action_of code }
{
    if code == 0 {
        return Action::Error;
    }
    if code == 1 {
        return Action::Accept;
    }
    let rest = code - 2;
    if rest % 2 == 0 {
        return Action::Shift(rest / 2);
    }
    Action::Reduce(rest / 2)
}

// How many words a thing takes in the image.
pub const SET_WORDS: usize = 4;

pub const SIZE_WORDS: usize = 8;

pub const HEAD_WORDS: usize = 1 + SIZE_WORDS;

pub const MOST_SYMBOLS: usize = 14;

pub const PRODUCTION_WORDS: usize = 2 + MOST_SYMBOLS;

pub const RANGE_WORDS: usize = 3;

pub const SCAN_WORDS: usize = 3 * SET_WORDS;

pub const GROUP_WORDS: usize = SET_WORDS + 1;

// The most that each size may be.
pub const MOST_TERMINALS: usize = 64;

pub const MOST_NONTERMINALS: usize = 32;

pub const MOST_PRODUCTIONS: usize = 128;

pub const MOST_PARSE_STATES: usize = 128;

pub const MOST_SCAN_STATES: usize = 128;

pub const MOST_CLASSES: usize = 32;

pub const MOST_RANGES: usize = 64;

pub const MOST_GROUPS: usize = 32;

// The least and the most of the sizes, by their word.
const LEAST_SIZES: [usize; HEAD_WORDS] = [0, 1, 1, 1, 1, 1, 1, 0, 0];

const GREATEST_SIZES: [usize; HEAD_WORDS] = [
    0,
    MOST_TERMINALS,
    MOST_NONTERMINALS,
    MOST_PRODUCTIONS,
    MOST_PARSE_STATES,
    MOST_SCAN_STATES,
    MOST_CLASSES,
    MOST_RANGES,
    MOST_GROUPS,
];

// The words of the largest image.
pub const LARGEST_IMAGE: usize = 20589;

// Where the layout set stands, and where the table of what outranks a terminal begins.
pub const LAYOUT_AT: usize = HEAD_WORDS;

pub const DOM_START: usize = LAYOUT_AT + SET_WORDS;

// The symbol number of nonterminal 0.
pub const FIRST_NONTERMINAL: usize = 64;

// How many bytes there are, and the greatest.
pub const BYTE_COUNT: usize = 256;

pub const GREATEST_BYTE: usize = BYTE_COUNT - 1;

// Four words, lowest first, as one set.
fn join(a: u16, b: u16, c: u16, d: u16) -> u64
    ensures { result ≡ a + b * 65536 + c * 4294967296 + d * 281474976710656 }
{
    u64::from(a) + u64::from(b) * 65536 + u64::from(c) * 4294967296 + u64::from(d) * 281474976710656
}

// The word at a place.
pub fn word_at(img: &[u16], i: usize) -> usize
    requires { i < length img.now }
    ensures { result ≡ word img.now i }
{
    usize::from(img[i])
}

// The set whose first word stands at a place.
#[tactic(auto, unfolding(crate::specs::Image::set_at))]
pub fn set_at(img: &[u16], i: usize) -> u64
    requires { i + set_words ≤ length img.now }
    ensures { result ≡ set_at img.now i }
{
    join(img[i], img[i + 1], img[i + 2], img[i + 3])
}

// The least and the most of the size at word i.
#[tactic(auto, unfolding(crate::specs::Image::least_size))]
pub fn least_size(i: usize) -> usize
    requires { i < head_words }
    ensures { result ≡ least_size i }
{
    LEAST_SIZES[i]
}

#[tactic(auto, unfolding(crate::specs::Image::greatest_size))]
pub fn greatest_size(i: usize) -> usize
    requires { i < head_words }
    ensures { result ≡ greatest_size i }
{
    GREATEST_SIZES[i]
}

// T, N, P, S, Q, C, R and G.
pub fn terminals(img: &[u16]) -> usize
    requires { head_words ≤ length img.now }
    ensures { result ≡ terminals img.now }
{
    word_at(img, 1)
}

pub fn nonterminals(img: &[u16]) -> usize
    requires { head_words ≤ length img.now }
    ensures { result ≡ nonterminals img.now }
{
    word_at(img, 2)
}

pub fn productions(img: &[u16]) -> usize
    requires { head_words ≤ length img.now }
    ensures { result ≡ productions img.now }
{
    word_at(img, 3)
}

pub fn states(img: &[u16]) -> usize
    requires { head_words ≤ length img.now }
    ensures { result ≡ states img.now }
{
    word_at(img, 4)
}

pub fn scan_states(img: &[u16]) -> usize
    requires { head_words ≤ length img.now }
    ensures { result ≡ scan_states img.now }
{
    word_at(img, 5)
}

pub fn classes(img: &[u16]) -> usize
    requires { head_words ≤ length img.now }
    ensures { result ≡ classes img.now }
{
    word_at(img, 6)
}

pub fn ranges(img: &[u16]) -> usize
    requires { head_words ≤ length img.now }
    ensures { result ≡ ranges img.now }
{
    word_at(img, 7)
}

pub fn groups(img: &[u16]) -> usize
    requires { head_words ≤ length img.now }
    ensures { result ≡ groups img.now }
{
    word_at(img, 8)
}
