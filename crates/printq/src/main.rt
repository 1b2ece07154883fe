// Reads a query as readq does, and prints its derivation and a LF (manual, section 6.4); where the query or the pack text is refused, the
// lines that readq prints of it. Nothing that matters is in here: the library reads, tests, parses and prints.
#![tactic(auto)]

use std::io;

// One byte more than the longest text: what is too long is seen to be.
const TOO_LONG: usize = 65536;

// Room for 6,000 records.
const ROOM: usize = 24000;

// Room for the printout of so many records: each byte of the text is in one leaf at the most and takes two bytes, and what a record
// adds is less than ten.
const LARGEST_PRINTOUT: usize = 200000;

// The derivation, or why it is not printed.
fn printed(rt: &impl Print, query: &[u8], tree: &[u16]) -> io::Result<()> {
    let mut out = [0u8; LARGEST_PRINTOUT];
    let a = printer::print(query, tree, &mut out);
    if a.code == numbers::DONE {
        rt.write_all(parts::bytes(&out, a.number))?;
        println!(rt; "")
    } else {
        lines::refused(rt, a)
    }
}

fn parsed(rt: &impl Print, img: &[u16], query: &[u8]) -> io::Result<()> {
    let mut tree = [0u16; ROOM];
    let p = parse::parse(img, query, &mut tree, numbers::GREATEST_ALLOWANCE);
    let words = parts::words(&tree, parts::least(p.records, ROOM) * 4);
    if p.code == numbers::DONE {
        printed(rt, query, words)
    } else {
        lines::parsed(rt, p, words)
    }
}

// The pack text, and then the query; a refused pack text prints its code and its place only.
fn answer(rt: &impl Print, text: &[u8], query: &[u8]) -> io::Result<()> {
    let mut img = [0u16; pack::image::LARGEST_IMAGE];
    let a = reader::read(text, &mut img);
    if a.code == numbers::DONE {
        parsed(rt, parts::words(&img, a.number), query)
    } else {
        lines::refused(rt, a)
    }
}

fn main(rt: HostRuntime) -> io::Result<()> {
    let mut text = [0u8; TOO_LONG];
    let mut query = [0u8; TOO_LONG];
    let t = lines::load(&rt, &mut text);
    let q = parts::fill(&mut rt.reader(), &mut query)?;
    answer(&rt, parts::bytes(&text, t), parts::bytes(&query, q))
}
