// Reads a pack text on standard input and writes it in another form: `reform 2` moves form 1 to form 2, and `reform 1` moves form 2 to form 1.
// A text that is refused prints its code and its place only.
#![tactic(auto)]

use numbers::Answer;
use std::io;
use std::rt::Env;

// One byte more than the longest text: what is too long is seen to be.
const TOO_LONG: usize = 65536;

// The text that was written, or the code and the place.
fn told(rt: &impl Print, a: Answer, room: &[u8]) -> io::Result<()> {
    if a.code == numbers::DONE {
        rt.write_all(parts::bytes(room, a.number))
    } else {
        println!(rt; "code={}", a.code)?;
        println!(rt; "place={}", a.number)
    }
}

fn to_form1(rt: &impl Print, text: &[u8]) -> io::Result<()> {
    let mut room = [0u8; TOO_LONG];
    let a = moves::to_form1(text, &mut room);
    told(rt, a, &room)
}

fn to_form2(rt: &impl Print, text: &[u8]) -> io::Result<()> {
    let mut room = [0u8; TOO_LONG];
    let a = moves::to_form2(text, &mut room);
    told(rt, a, &room)
}

// The first byte of the argument, 0 where there is none.
fn asked(rt: &impl Env) -> u8 {
    let mut word = [0u8; 4096];
    let _ = rt.arg(1, &mut word);
    word[0]
}

fn main(rt: HostRuntime) -> io::Result<()> {
    let mut text = [0u8; TOO_LONG];
    let n = parts::fill(&mut rt.reader(), &mut text)?;
    if asked(&rt) == b'1' {
        to_form1(&rt, parts::bytes(&text, n))
    } else {
        to_form2(&rt, parts::bytes(&text, n))
    }
}
