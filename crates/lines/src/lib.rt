// What the programs that read a query have in common: how a pack text is loaded, and the lines that are printed of an answer (manual,
// section 6.2). Nothing that matters is in here.
#![tactic(auto)]

ghost use Rattle.std.specs.Prelude.{◌+◌, ◌≤◌, length};

use numbers::Answer;
use parse::Parsed;
pub use parts::load;
use std::io;

// The record whose first word stands at a place.
fn record(rt: &impl Print, tree: &[u16], at: usize) -> io::Result<()>
    requires { at + 4 ≤ length tree.now }
{
    println!(rt;
        "rec={},{},{},{}",
        tree[at],
        tree[at + 1],
        tree[at + 2],
        tree[at + 3]
    )
}

// Every record of these words.
fn records(rt: &impl Print, tree: &[u16]) -> io::Result<()> {
    for i in 0..tree.len() / 4 {
        record(rt, tree, i * 4)?;
    }
    Ok(())
}

// What a parse gives, and its records.
pub fn parsed(rt: &impl Print, p: Parsed, words: &[u16]) -> io::Result<()> {
    println!(rt; "code={}", p.code)?;
    println!(rt; "place={}", p.place)?;
    println!(rt; "length={}", p.length)?;
    println!(rt; "terminal={}", p.terminal)?;
    println!(rt; "records={}", p.records)?;
    println!(rt; "moves={}", p.moves)?;
    records(rt, words)
}

// A refusal with its number.
pub fn refused(rt: &impl Print, a: Answer) -> io::Result<()> {
    println!(rt; "code={}", a.code)?;
    println!(rt; "place={}", a.number)
}
