// Reads the pack text that its first argument names, prints the code and the place, and where the text is taken the words of its image and
// the bytes of the text that is written back from it, with 1 for the same bytes. A file that is not named, not opened or not read is empty.
#![tactic(auto)]

use std::io;

// The text of the image again.
fn back(rt: &impl Print, text: &[u8], img: &[u16]) -> io::Result<()> {
    let mut room = [0u8; 65536];
    let a = writer::write(img, &mut room);
    println!(rt; "words={}", img.len())?;
    println!(rt; "bytes={}", a.number)?;
    let same = text == parts::bytes(&room, a.number);
    println!(rt; "same={}", u8::from(same))
}

fn repack(rt: &impl Print, text: &[u8]) -> io::Result<()> {
    let mut img = [0u16; pack::image::LARGEST_IMAGE];
    let a = reader::read(text, &mut img);
    println!(rt; "code={}", a.code)?;
    if a.code == numbers::DONE {
        back(rt, text, parts::words(&img, a.number))
    } else {
        println!(rt; "place={}", a.number)
    }
}

fn main(rt: HostRuntime) -> io::Result<()> {
    let mut text = [0u8; 65536];
    let n = parts::load(&rt, &mut text);
    repack(&rt, parts::bytes(&text, n))
}
