// Where each table of an image begins, and how long the image must be.
ghost use Rattle.std.specs.Prelude.{◌≡◌, ◌+◌, ◌*◌};
ghost use Rattle.words.specs.Image.{terminals, nonterminals, productions, states, classes, ranges, groups, prod_start, act_start, goto_start, class_start, move_start, scan_start, group_start, needed};
ghost use Rattle.words.specs.Laid.{Sized};

use words::{
    DOM_START, GROUP_WORDS, PRODUCTION_WORDS, RANGE_WORDS, SCAN_WORDS, SET_WORDS, classes, groups,
    nonterminals, productions, ranges, scan_states, states, terminals,
};

// Where each table begins.
pub fn prod_start(img: &[u16]) -> usize
    requires { Sized img.now }
    ensures { result ≡ prod_start img.now }
{
    DOM_START + terminals(img) * SET_WORDS
}

pub fn act_start(img: &[u16]) -> usize
    requires { Sized img.now }
    ensures { result ≡ act_start img.now }
{
    prod_start(img) + productions(img) * PRODUCTION_WORDS
}

pub fn goto_start(img: &[u16]) -> usize
    requires { Sized img.now }
    ensures { result ≡ goto_start img.now }
{
    act_start(img) + states(img) * terminals(img)
}

pub fn class_start(img: &[u16]) -> usize
    requires { Sized img.now }
    ensures { result ≡ class_start img.now }
{
    goto_start(img) + states(img) * nonterminals(img)
}

pub fn move_start(img: &[u16]) -> usize
    requires { Sized img.now }
    ensures { result ≡ move_start img.now }
{
    class_start(img) + ranges(img) * RANGE_WORDS
}

pub fn scan_start(img: &[u16]) -> usize
    requires { Sized img.now }
    ensures { result ≡ scan_start img.now }
{
    move_start(img) + scan_states(img) * classes(img)
}

pub fn group_start(img: &[u16]) -> usize
    requires { Sized img.now }
    ensures { result ≡ group_start img.now }
{
    scan_start(img) + scan_states(img) * SCAN_WORDS
}

// How long the image must be.
pub fn needed(img: &[u16]) -> usize
    requires { Sized img.now }
    ensures { result ≡ needed img.now }
{
    group_start(img) + groups(img) * GROUP_WORDS
}
