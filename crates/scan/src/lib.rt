// One scan, and the scan called by itself.
#![tactic(auto)]

ghost use Rattle.std.specs.Prelude.{◌≡◌, ◌<◌, ◌≤◌, length, IfSome, IfOk};
ghost use Rattle.sets.specs.Sets.{meet};
ghost use Rattle.pack.specs.Image.{scan_states, classes, move, acc, rej, all_but_end};
ghost use Rattle.pack.specs.Laid.{Laid};
ghost use Rattle.classes.specs.Ready.{Ready};
ghost use Rattle.scan.specs.Scan.{remember, stopped, used_up, scan, answer, scan_alone};
ghost use Rattle.scan.specs.Found.{one_more, kept_of, stop_of};

use numbers::WrongWord;
use pack::image;

// So many bytes make a scan a long one, for which an index of the ranges pays.
const LONG: usize = 512;

// What a scan matched last: the terminals, one or more of them, and the length of that match.
#[derive(Clone, Copy, Debug, PartialEq, Eq)]
pub struct Matched {
    pub set: u64,
    pub length: usize,
}

// What a scan remembers on its way: the same, or both 0 for none. Two numbers, since a branch for each byte makes a scan twice as slow.
#[derive(Clone, Copy, Debug, PartialEq, Eq)]
struct Remembered {
    set: u64,
    length: usize,
}

// A move beyond the allowance was asked for.
#[derive(Clone, Copy, Debug, PartialEq, Eq)]
pub struct UsedUp;

// Where a scan stops: its match, if any, unless a move beyond the allowance was asked for, and the moves that it took.
#[derive(Clone, Copy, Debug, PartialEq, Eq)]
pub struct Found {
    pub matched: Result<Option<Matched>, UsedUp>,
    pub moves: usize,
}

// What the scan called by itself gives.
#[derive(Clone, Copy, Debug, PartialEq, Eq)]
pub struct Scanned {
    pub code: u8,
    pub place: usize,
    pub set: u64,
    pub length: usize,
    pub moves: usize,
}

// What is remembered after so many moves, into a state that accepts and rejects these of the valid set.
#[tactic(auto, unfolding(crate::specs::Scan::remember, sets::specs::Sets::is_empty))]
fn remember(accepted: u64, rejected: u64, length: usize, before: Remembered) -> Remembered
    requires { before.set ≡ 0 → before.length ≡ 0 }
    ensures value { result ≡ remember accepted rejected length before }
    ensures none { result.set ≡ 0 → result.length ≡ 0 }
{
    if accepted != 0 {
        return Remembered {
            set: accepted,
            length,
        };
    }
    if rejected != 0 {
        return Remembered { set: 0, length: 0 };
    }
    before
}

// What is remembered in a new state.
fn entered(img: &[u16], v: u64, state: usize, length: usize, before: Remembered) -> Remembered
    requires ready { Ready img.now }
    requires state_bound { state < scan_states img.now }
    requires none_before { before.set ≡ 0 → before.length ≡ 0 }
    ensures value { result ≡ remember (meet (acc img.now state) v) (meet (rej img.now state) v) length before }
    ensures none { result.set ≡ 0 → result.length ≡ 0 }
{
    let acc = image::acc(img, state);
    let rej = image::rej(img, state);
    remember(acc & v, rej & v, length, before)
}

// A stop: what is remembered is the match.
fn stopped(kept: Remembered, moves: usize) -> Found
    requires { kept.set ≡ 0 → kept.length ≡ 0 }
    ensures value { stop_of result ≡ stopped kept moves }
    ensures some { IfOk result.matched (λ matched. IfSome matched (λ m. m.set ≡ 0 → ⊥)) }
{
    if kept.set == 0 {
        return Found {
            matched: Ok(None),
            moves,
        };
    }
    Found {
        matched: Ok(Some(Matched {
            set: kept.set,
            length: kept.length,
        })),
        moves,
    }
}

// A move beyond the allowance is asked for.
fn used_up(moves: usize) -> Found
    ensures value { stop_of result ≡ used_up moves }
    ensures some { IfOk result.matched (λ matched. IfSome matched (λ m. m.set ≡ 0 → ⊥)) }
{
    Found {
        matched: Err(UsedUp),
        moves,
    }
}

// The scan state that a scan state moves to on bytes of a class.
#[tactic(auto, using(crate::proofs::Laws::move_in))]
fn next(img: &[u16], state: usize, class: usize) -> Option<usize>
    requires ready { Ready img.now }
    requires in_table { (state < scan_states img.now) × (class < classes img.now) }
    ensures value { one_more result ≡ move img.now state class }
    ensures in_states { IfSome result (λ q. q < scan_states img.now) }
{
    let to = image::move_of(img, state, class);
    if to == 0 {
        return None;
    }
    Some(to - 1)
}

// One scan over the rest of the text, by an index of the ranges, which is filled first: for a long one.
#[tactic(auto, using(crate::proofs::Laws::scan_impossible, crate::proofs::Laws::scan_stuck, crate::proofs::Laws::scan_spent, crate::proofs::Laws::scan_on, crate::proofs::Laws::scan_over))]
fn long_scan(img: &[u16], v: u64, allowance: usize, bytes: &[u8]) -> Found
    requires { Ready img.now }
    ensures value { stop_of result ≡ scan img.now v allowance bytes.now }
    ensures some { IfOk result.matched (λ matched. IfSome matched (λ m. m.set ≡ 0 → ⊥)) }
{
    let index = index::index_of(img);
    let mut state: usize = 0;
    let mut moves: usize = 0;
    let mut last = Remembered { set: 0, length: 0 };
    while image::poss(img, state) & v != 0 {
        if bytes.len() <= moves {
            return stopped(last, moves);
        }
        let Some(to) = next(img, state, index::class_by(img, &index, bytes[moves])) else {
            return stopped(last, moves);
        };
        if allowance <= moves {
            return used_up(moves);
        }
        state = to;
        moves += 1;
        last = entered(img, v, state, moves, last);
    }
    stopped(last, moves)
}

// After n moves, at the end of the text or of what is scanned without an index: there the scan begins again with one.
fn beyond(img: &[u16], v: u64, allowance: usize, bytes: &[u8], n: usize, kept: Remembered) -> Found
    requires ready { Ready img.now }
    requires none { kept.set ≡ 0 → kept.length ≡ 0 }
    ensures before_the_end { n < length bytes.now → stop_of result ≡ scan img.now v allowance bytes.now }
    ensures at_the_end { length bytes.now ≤ n → stop_of result ≡ stopped kept n }
    ensures some { IfOk result.matched (λ matched. IfSome matched (λ m. m.set ≡ 0 → ⊥)) }
{
    if n < bytes.len() {
        return long_scan(img, v, allowance, bytes);
    }
    stopped(kept, n)
}

// One scan over the rest of the text. Inner: its callers have tested the shape.
#[tactic(auto, using(crate::proofs::Laws::scan_impossible, crate::proofs::Laws::scan_stuck, crate::proofs::Laws::scan_spent, crate::proofs::Laws::scan_on))]
pub fn one_scan(img: &[u16], v: u64, allowance: usize, bytes: &[u8]) -> Found
    requires { Ready img.now }
    ensures value { stop_of result ≡ scan img.now v allowance bytes.now }
    ensures some { IfOk result.matched (λ matched. IfSome matched (λ m. m.set ≡ 0 → ⊥)) }
{
    let near = bytes.len().min(LONG);
    let mut q: usize = 0;
    let mut n: usize = 0;
    let mut kept = Remembered { set: 0, length: 0 };
    while image::poss(img, q) & v != 0 {
        if near <= n {
            return beyond(img, v, allowance, bytes, n, kept);
        }
        let Some(to) = next(img, q, classes::class_of(img, bytes[n])) else {
            return stopped(kept, n);
        };
        if allowance <= n {
            return used_up(n);
        }
        q = to;
        n += 1;
        kept = entered(img, v, q, n, kept);
    }
    stopped(kept, n)
}

// One scan over the rest of the text, with an index from the start where it may be a long one.
fn any_scan(img: &[u16], v: u64, allowance: usize, bytes: &[u8]) -> Found
    requires { Ready img.now }
    ensures value { stop_of result ≡ scan img.now v allowance bytes.now }
    ensures some { IfOk result.matched (λ matched. IfSome matched (λ m. m.set ≡ 0 → ⊥)) }
{
    if LONG <= bytes.len() {
        return long_scan(img, v, allowance, bytes);
    }
    one_scan(img, v, allowance, bytes)
}

// All terminals but the end of the text.
pub fn all_but_end(img: &[u16]) -> u64
    requires { Laid img.now }
    ensures { result ≡ all_but_end img.now }
{
    let t = image::terminals(img);
    if t < 64 {
        return (1u64 << t) - 2;
    }
    18446744073709551614
}

// The five numbers; set and length are 0 where nothing is remembered.
fn five_numbers(code: u8, place: usize, kept: Option<Matched>, moves: usize) -> Scanned
    ensures { result ≡ record { code = code; place = place; set = (kept_of kept).set; length = (kept_of kept).length; moves = moves } }
{
    let last = kept.unwrap_or(Matched { set: 0, length: 0 });
    Scanned {
        code,
        place,
        set: last.set,
        length: last.length,
        moves,
    }
}

// The numbers of a scan that stopped.
#[tactic(auto, unfolding(crate::specs::Scan::stop_code))]
fn answer(place: usize, found: Found) -> Scanned
    ensures { result ≡ answer place (stop_of found) }
{
    match found.matched {
        Ok(kept) => five_numbers(numbers::DONE, place, kept, found.moves),
        Err(UsedUp) => five_numbers(numbers::ALLOWANCE_USED_UP, place, None, found.moves),
    }
}

// The scan called by itself. It asks nothing: a start past the text counts as its end, and what is no token is dropped from the set.
pub fn scan(img: &[u16], text: &[u8], start: usize, set: u64, allowance: u32) -> Scanned
    ensures { result ≡ scan_alone img.now text.now start set allowance }
{
    if numbers::LONGEST_TEXT < text.len() {
        return five_numbers(numbers::QUERY_TOO_LONG, 0, None, 0);
    }
    if let Err(WrongWord(place)) = shape::shape(img) {
        return five_numbers(numbers::WRONG_SHAPE, place, None, 0);
    }
    let place = start.min(text.len());
    let found = any_scan(
        img,
        set & all_but_end(img),
        allowance as usize,
        &text[place..],
    );
    answer(place, found)
}
