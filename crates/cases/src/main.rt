// Reads a case file on standard input and writes an answer line for each case: second/README.md has the format. What matters is in the
// libraries: this program moves bytes and prints numbers. A kind of case that it does not know gives an empty line.
#![tactic(auto)]

ghost use Rattle.std.specs.Prelude.{◌<◌};

use numbers::Answer;
use std::io;
use std::io::Read;

// A length that says: as in the case before.
const SAME: usize = 4294967295;

// Number i of the ten in a case's header.
fn number(head: &[u8; 40], i: usize) -> u32
    requires { i < 10 }
{
    let (numbers, _) = head.as_chunks::<4>();
    u32::from_le_bytes(numbers[i])
}

// The words of pairs of bytes, the low one first, as many as there is room for.
fn join(raw: &[u8], img: &mut [u16]) {
    let (pairs, _) = raw.as_chunks::<2>();
    for (cell, pair) in img.iter_mut().zip(pairs) {
        *cell = u16::from_le_bytes(*pair);
    }
}

fn shape(rt: &impl Print, img: &[u16]) -> io::Result<()> {
    let v = shape::shape(img);
    println!(rt;
        "{},{}",
        numbers::verdict_code(v),
        numbers::verdict_place(v)
    )
}

fn scan(rt: &impl Print, img: &[u16], text: &[u8], head: &[u8; 40]) -> io::Result<()> {
    let set = u64::from(number(head, 4)) + u64::from(number(head, 5)) * 4294967296;
    let r = scan::scan(img, text, number(head, 3) as usize, set, number(head, 6));
    println!(rt; "{},{},{},{},{}", r.code, r.place, r.set, r.length, r.moves)
}

// The checksum of a lent buffer, one element after the other.
fn mixed(h: u64, x: u64) -> u64
    requires { (h < 4294967296) × (x < 65536) }
    ensures { result < 4294967296 }
{
    (h * 257 + x + 1) % 4294967291
}

fn sum_of_words(room: &[u16]) -> u64 {
    let mut h: u64 = 1;
    for x in room {
        h = mixed(h, u64::from(*x));
    }
    h
}

fn sum_of_bytes(room: &[u8]) -> u64 {
    let mut h: u64 = 1;
    for b in room {
        h = mixed(h, u64::from(*b));
    }
    h
}

// What stands in a lent buffer before the call.
fn pattern_of_words(room: &mut [u16]) {
    let mut x: u16 = 12345;
    for cell in room {
        *cell = x;
        x = x.wrapping_add(40503);
    }
}

fn pattern_of_bytes(room: &mut [u8]) {
    let mut x: u8 = 91;
    for cell in room {
        *cell = x;
        x = x.wrapping_add(167);
    }
}

// The answer of a call that writes words to the front of a lent buffer, of which it is lent so many, and the checksum of these.
fn read(rt: &impl Print, text: &[u8], n: usize) -> io::Result<()> {
    let mut room = [0u16; 20700];
    let k = parts::least(n, room.len());
    let room = &mut room[..k];
    pattern_of_words(room);
    let a = reader::read(text, room);
    println!(rt; "{},{},{}", a.code, a.number, sum_of_words(room))
}

// The same of a call that writes bytes.
fn written<F: FnOnce(&mut [u8]) -> Answer>(rt: &impl Print, n: usize, write: F) -> io::Result<()>
    requires { F.IsAlwaysCallable write }
{
    let mut room = [0u8; 65600];
    let k = parts::least(n, room.len());
    let room = &mut room[..k];
    pattern_of_bytes(room);
    let a = write(room);
    println!(rt; "{},{},{}", a.code, a.number, sum_of_bytes(room))
}

fn check(rt: &impl Print, img: &[u16]) -> io::Result<()> {
    let c = checker::check(img);
    println!(rt; "{},{},{},{}", c.code, c.number, c.first, c.second)
}

fn parse(rt: &impl Print, img: &[u16], text: &[u8], head: &[u8; 40]) -> io::Result<()> {
    let mut tree = [0u16; 40000];
    let k = parts::least(number(head, 3) as usize, tree.len());
    let tree = &mut tree[..k];
    pattern_of_words(tree);
    let p = parse::parse(img, text, tree, number(head, 4));
    let sum = sum_of_words(tree);
    println!(rt;
        "{},{},{},{},{},{},{sum}",
        p.code, p.place, p.length, p.terminal, p.records, p.moves
    )
}

// Number i of the header as a record's word.
fn record_word(head: &[u8; 40], i: usize) -> u16
    requires { i < 10 }
{
    (number(head, i) % 65536) as u16
}

fn leaf(rt: &impl Print, text: &[u8], head: &[u8; 40]) -> io::Result<()> {
    let part = parse::leaf(
        text,
        record_word(head, 3),
        record_word(head, 4),
        record_word(head, 5),
        record_word(head, 6),
    );
    println!(rt; "{},{}", part.len(), sum_of_bytes(part))
}

fn answer(rt: &impl Print, head: &[u8; 40], img: &[u16], text: &[u8]) -> io::Result<()> {
    let n = number(head, 3) as usize;
    match number(head, 0) {
        1 => shape(rt, img),
        2 => scan(rt, img, text, head),
        3 => read(rt, text, n),
        4 => written(rt, n, |room| writer::write(img, room)),
        5 => check(rt, img),
        6 => parse(rt, img, text, head),
        7 => leaf(rt, text, head),
        8 => written(rt, n, |room| printer::print(text, img, room)),
        9 => written(rt, n, |room| writer::write2(img, room)),
        10 => written(rt, n, |room| moves::to_form2(text, room)),
        11 => written(rt, n, |room| moves::to_form1(text, room)),
        _ => println!(rt; ""),
    }
}

// The next n bytes of the input, or as many as there is room for, at the front of the buffer.
fn fill(input: &mut impl Read, buf: &mut [u8], n: usize) -> io::Result<()> {
    let k = parts::least(n, buf.len());
    parts::fill(input, &mut buf[..k])?;
    Ok(())
}

// Reads the image of a case and gives its length, or that of the case before.
fn read_image(
    input: &mut impl Read,
    given: usize,
    before: usize,
    img: &mut [u16],
) -> io::Result<usize> {
    if given == SAME {
        return Ok(before);
    }
    let n = parts::least(given, 20700);
    let mut raw = [0u8; 41400];
    fill(input, &mut raw, n * 2)?;
    join(&raw, img);
    Ok(n)
}

// Reads the text of a case in the same way.
fn read_text(
    input: &mut impl Read,
    given: usize,
    before: usize,
    text: &mut [u8],
) -> io::Result<usize> {
    if given == SAME {
        return Ok(before);
    }
    fill(input, text, given)?;
    Ok(given)
}

// The lengths of the image and the text of a case.
#[derive(Clone, Copy)]
struct Held {
    words: usize,
    bytes: usize,
}

// Answers the next case, if there is one.
fn one_case(
    rt: &impl Print,
    input: &mut impl Read,
    head: &mut [u8; 40],
    img: &mut [u16; 20700],
    text: &mut [u8; 65600],
    before: Held,
) -> io::Result<Option<Held>> {
    if parts::fill(input, head)? < 40 {
        return Ok(None);
    }
    let words = read_image(input, number(head, 1) as usize, before.words, img)?;
    let bytes = read_text(input, number(head, 2) as usize, before.bytes, text)?;
    answer(
        rt,
        head,
        parts::words(img, words),
        parts::bytes(text, bytes),
    )?;
    Ok(Some(Held { words, bytes }))
}

fn main(rt: HostRuntime) -> io::Result<()> {
    let mut input = rt.reader();
    let mut head = [0u8; 40];
    let mut img = [0u16; 20700];
    let mut text = [0u8; 65600];
    let mut held = Held { words: 0, bytes: 0 };
    for _ in 0..u64::MAX {
        match one_case(&rt, &mut input, &mut head, &mut img, &mut text, held)? {
            Some(next) => held = next,
            None => break,
        }
    }
    Ok(())
}
