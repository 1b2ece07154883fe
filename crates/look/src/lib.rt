// Layout is skipped and the next token is found: all that the parse knows of the scan. Inner functions: their callers have tested the shape.
#![tactic(auto)]

ghost use Rattle.std.specs.Prelude.{◌≡◌, ℕ, ◌^◌, ◌<◌, IfOk, IfSome, Err};
ghost use Rattle.numbers.specs.Verdicts.{Good};
ghost use Rattle.pack.specs.Image.{terminals, states};
ghost use Rattle.pack.specs.Laid.{Laid};
ghost use Rattle.shape.specs.Shape.{shape};
ghost use Rattle.classes.specs.Ready.{Ready};
ghost use Rattle.token.specs.Terms.{Terms};
ghost use Rattle.look.specs.declared.Spot.{Spot};
ghost use Rattle.look.specs.Inner.{Known, Within, SoughtWithin, LookedWithin};
ghost use Rattle.look.specs.Look.{seek, rescan, choose, sought_set, piece, look};
ghost use Rattle.look.specs.Next.{sought_of, looked_at, looked_of};

use pack::image;
use scan::{Matched, UsedUp};
use token::{least, terminal_of};

// Why a parse is refused on its way: the codes 7 to 13 of the manual, with the numbers that go with them.
#[derive(Clone, Copy, Debug, PartialEq, Eq)]
pub enum ParseError {
    NoTerminal,
    Unexpected { length: usize, terminal: usize },
    NoGroup { length: usize },
    Stuck,
    TreeFull,
    StackFull,
    AllowanceUsedUp,
}

// A token: its terminal and the bytes that it takes.
#[derive(Clone, Copy, Debug, PartialEq, Eq)]
pub struct Token {
    pub terminal: usize,
    pub length: usize,
}

// Where the parse stands in the text: the place and the moves made.
#[derive(Clone, Copy, Debug, PartialEq, Eq)]
pub struct Spot {
    pub place: usize,
    pub moves: usize,
}

// What is found, and where the parse then stands.
#[derive(Clone, Copy, Debug, PartialEq, Eq)]
pub struct Next {
    pub found: Result<Token, ParseError>,
    pub at: Spot,
}

// The end of the text, as a token.
const END_OF_TEXT: Token = Token {
    terminal: 0,
    length: 0,
};

// One scan from where the parse stands, within what is left of the allowance. The parse then stands there with the moves made.
fn seek(
    img: &[u16],
    text: &[u8],
    allowance: usize,
    v: u64,
    at: &mut Spot,
) -> Result<Option<Matched>, UsedUp>
    requires ready { Ready img.now }
    requires within { Within text.now allowance at.old }
    requires v_bound { v < 2 ^ terminals img.now }
    ensures value { sought_of result at.new ≡ seek img.now text.now allowance v at.old }
    ensures some { IfOk result (λ matched. IfSome matched (λ m. m.set ≡ 0 → ⊥)) }
    ensures sought_within { SoughtWithin img.now text.now allowance (sought_of result at.new) }
{
    let found = scan::one_scan(img, v, allowance - at.moves, &text[at.place..]);
    at.moves += found.moves;
    found.matched
}

// The token of a match, where its terminals are one or the set of a group.
fn choose(img: &[u16], set: u64, length: usize) -> Result<Token, ParseError>
    requires laid { Laid img.now }
    requires good_shape { shape img.now ≡ Good }
    requires some_terms { (set ≡ 0 → ⊥) × Terms img.now set }
    ensures value { (at : Spot) → looked_at result at ≡ choose img.now set length at }
    ensures token { (at : Spot) → ((looked_at result at).length ≡ length) × ((looked_at result at).terminal < terminals img.now) }
{
    match terminal_of(img, set) {
        Some(terminal) => Ok(Token { terminal, length }),
        None => Err(ParseError::NoGroup { length }),
    }
}

// No match: what other terminal is there, or none.
fn rescan(img: &[u16], text: &[u8], allowance: usize, at: &mut Spot) -> ParseError
    requires ready { Ready img.now }
    requires within { Within text.now allowance at.old }
    ensures value { looked_at (Err result) at.new ≡ rescan img.now text.now allowance at.old }
    ensures looked_within { LookedWithin img.now text.now allowance (looked_at (Err result) at.new) }
{
    let others = sets::less(scan::all_but_end(img), image::layout(img));
    match seek(img, text, allowance, others, at) {
        Ok(Some(m)) => {
            let length = m.length;
            let terminal = least(img, m.set);
            ParseError::Unexpected { length, terminal }
        }
        Ok(None) => ParseError::NoTerminal,
        Err(UsedUp) => ParseError::AllowanceUsedUp,
    }
}

// The set that is scanned for in state s: from the row of sets, where it stands, or found and put there.
fn sought_set(img: &[u16], known: &mut [u64; 128], s: usize) -> u64
    requires laid { Laid img.now }
    requires known { Known img.now known.old }
    requires s_bound { s < states img.now }
    ensures value { result ≡ sought_set img.now s }
    ensures known_after { Known img.now known.new }
{
    let found = known[s];
    if found != 0 {
        return found;
    }
    let set = sets::less(image::valid_set(img, s) | image::layout(img), 1);
    known[s] = set;
    set
}

// One scan for the set of a state, and what it comes to: layout or a token, or a refusal.
fn piece(
    img: &[u16],
    text: &[u8],
    allowance: usize,
    v: u64,
    at: &mut Spot,
) -> Result<Token, ParseError>
    requires ready { Ready img.now }
    requires within { Within text.now allowance at.old }
    requires v_bound { v < 2 ^ terminals img.now }
    ensures for_its_state { (s : ℕ) → v ≡ sought_set img.now s → looked_at result at.new ≡ piece img.now text.now allowance s at.old }
    ensures looked_within { LookedWithin img.now text.now allowance (looked_at result at.new) }
{
    match seek(img, text, allowance, v, at) {
        Ok(Some(m)) => choose(img, m.set, m.length),
        Ok(None) => Err(rescan(img, text, allowance, at)),
        Err(UsedUp) => Err(ParseError::AllowanceUsedUp),
    }
}

// Past the layout to the token of state s, or to the end of the text, where nothing is scanned.
pub fn look(
    img: &[u16],
    text: &[u8],
    known: &mut [u64; 128],
    allowance: usize,
    s: usize,
    at: Spot,
) -> Next
    requires ready { Ready img.now }
    requires known { Known img.now known.old }
    requires s_bound { s < states img.now }
    requires within { Within text.now allowance at }
    ensures value { looked_of result ≡ look img.now text.now allowance s at }
    ensures looked_within { LookedWithin img.now text.now allowance (looked_of result) }
    ensures known_after { Known img.now known.new }
{
    if text.len() <= at.place {
        return Next {
            found: Ok(END_OF_TEXT),
            at,
        };
    }
    let v = sought_set(img, known, s);
    let mut here = at;
    while here.place < text.len() {
        let found = piece(img, text, allowance, v, &mut here);
        let Ok(token) = found else {
            return Next { found, at: here };
        };
        if !sets::member(image::layout(img), token.terminal) {
            return Next { found, at: here };
        }
        here.place += token.length;
    }
    Next {
        found: Ok(END_OF_TEXT),
        at: here,
    }
}
