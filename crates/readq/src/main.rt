// Reads the query on standard input by the pack text that its first argument names, and prints what the parse gives (manual, section 6.2).
// A pack text that is not named, not opened or not read is empty. Nothing that matters is in here: the library reads, tests and parses.
#![tactic(auto)]

use std::io;

// One byte more than the longest text: what is too long is seen to be.
const TOO_LONG: usize = 65536;

// Room for 6,000 records.
const ROOM: usize = 24000;

fn parsed(rt: &impl Print, img: &[u16], query: &[u8]) -> io::Result<()> {
    let mut tree = [0u16; ROOM];
    let p = parse::parse(img, query, &mut tree, numbers::GREATEST_ALLOWANCE);
    lines::parsed(
        rt,
        p,
        parts::words(&tree, parts::least(p.records, ROOM) * 4),
    )
}

// The pack text, and then the query; a refused pack text prints its code and its place only.
fn answer(rt: &impl Print, text: &[u8], query: &[u8]) -> io::Result<()> {
    let mut img = [0u16; pack::image::LARGEST_IMAGE];
    let a = reader::read(text, &mut img);
    if a.code == numbers::DONE {
        parsed(rt, parts::words(&img, a.number), query)
    } else {
        lines::refused(rt, a)
    }
}

fn main(rt: HostRuntime) -> io::Result<()> {
    let mut text = [0u8; TOO_LONG];
    let mut query = [0u8; TOO_LONG];
    let t = lines::load(&rt, &mut text);
    let q = parts::fill(&mut rt.reader(), &mut query)?;
    answer(&rt, parts::bytes(&text, t), parts::bytes(&query, q))
}
