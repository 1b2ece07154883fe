// What each function answers, as numbers at the front of a lent row: the way that the functions for C give it back. Where the row has no
// room for them nothing is written there, and 0 is told.
#![tactic(auto)]

ghost use Rattle.std.specs.Prelude.{◌≡◌, [], ◌∷◌};
ghost use Rattle.numbers.specs.Verdicts.{verdict_of};
ghost use Rattle.answers.specs.Numbers.{told, written, of_shape, of_scan, of_answer, of_check, of_parse, of_part, part_of};

use conditions::Checked;
use leaf::Part;
use numbers::{Answer, WrongWord};
use records::Parsed;
use scan::Scanned;

// Numbers at the front of the row, where there is room for them.
#[tactic(auto, using(numbers::proofs::Laws::deliver_none, numbers::proofs::Laws::deliver_all))]
fn put<const N: usize>(out: &mut [u64], numbers: [u64; N]) -> usize
    ensures value { result ≡ told out.old numbers.entry }
    ensures out_after { out.new ≡ written out.old numbers.entry }
{
    if out.len() < N {
        return 0;
    }
    out[..N].copy_from_slice(&numbers);
    N
}

// Of the shape: code and place.
pub fn put_shape(out: &mut [u64], v: Result<(), WrongWord>) -> usize
    ensures value { result ≡ told out.old (of_shape (verdict_of v)) }
    ensures out_after { out.new ≡ written out.old (of_shape (verdict_of v)) }
{
    let code = numbers::verdict_code(v) as u64;
    let place = numbers::verdict_place(v) as u64;
    put(out, [code, place])
}

// Of the scan called by itself: code, place, set, length and moves.
pub fn put_scan(out: &mut [u64], s: Scanned) -> usize
    ensures value { result ≡ told out.old (of_scan s) }
    ensures out_after { out.new ≡ written out.old (of_scan s) }
{
    put(
        out,
        [
            s.code as u64,
            s.place as u64,
            s.set,
            s.length as u64,
            s.moves as u64,
        ],
    )
}

// Of a function that fills a buffer: code and number.
pub fn put_answer(out: &mut [u64], a: Answer) -> usize
    ensures value { result ≡ told out.old (of_answer a) }
    ensures out_after { out.new ≡ written out.old (of_answer a) }
{
    put(out, [a.code as u64, a.number as u64])
}

// Of the check: code, number and the two places.
pub fn put_check(out: &mut [u64], c: Checked) -> usize
    ensures value { result ≡ told out.old (of_check c) }
    ensures out_after { out.new ≡ written out.old (of_check c) }
{
    put(
        out,
        [
            c.code as u64,
            c.number as u64,
            c.first as u64,
            c.second as u64,
        ],
    )
}

// Of the parse: code, place, length, terminal, records and moves.
pub fn put_parse(out: &mut [u64], p: Parsed) -> usize
    ensures value { result ≡ told out.old (of_parse p) }
    ensures out_after { out.new ≡ written out.old (of_parse p) }
{
    put(
        out,
        [
            p.code as u64,
            p.place as u64,
            p.length as u64,
            p.terminal as u64,
            p.records as u64,
            p.moves as u64,
        ],
    )
}

// The part of the text that the record at the front of a row stands for; a row too short for a record has none.
pub fn part_of(text: &[u8], row: &[u16]) -> Part
    ensures { result ≡ part_of text.now row.now }
{
    if row.len() < 4 {
        return Part {
            start: 0,
            length: 0,
        };
    }
    leaf::leaf_part(text, row[0], row[1], row[2], row[3])
}

// Of a leaf's bytes: start and length of that part.
pub fn put_part(out: &mut [u64], p: Part) -> usize
    ensures value { result ≡ told out.old (of_part p) }
    ensures out_after { out.new ≡ written out.old (of_part p) }
{
    put(out, [p.start as u64, p.length as u64])
}
