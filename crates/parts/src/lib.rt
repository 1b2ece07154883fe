// Front parts of lent slices, and what is read from outside, for the programs.
#![tactic(auto)]

ghost use Rattle.std.specs.Prelude.{◌≡◌, ◌<◌, ◌≤◌, min, length, take, IfOk};
ghost use Rattle.std.specs.Io.KnownBytes.{Consumes, IsAtEnd};

use std::io::Read;
use std::rt::{Env, Files};
use std::{fs, io};

// Room for the longest path.
const LONGEST_PATH: usize = 4096;

// The smaller of the two.
pub fn least(a: usize, b: usize) -> usize
    ensures { result ≡ min a b }
{
    a.min(b)
}

// The first n words, or all where there are fewer.
pub fn words(img: &[u16], n: usize) -> &[u16]
    ensures { result.now ≡ take (min n (length img.now)) img.now }
{
    let k = least(n, img.len());
    &img[..k]
}

// The first n bytes, or all where there are fewer.
pub fn bytes(text: &[u8], n: usize) -> &[u8]
    ensures { result.now ≡ take (min n (length text.now)) text.now }
{
    let k = least(n, text.len());
    &text[..k]
}

// Reads to the front of the buffer until it is full or the input ends, and gives how many bytes that are. Where a read fails, what stands
// in the buffer is left open.
pub fn fill<R: Read>(input: &mut R, buf: &mut [u8]) -> io::Result<usize>
    ensures within { IfOk result (λ n. n ≤ length buf.new) }
    ensures read { IfOk result (λ n. Consumes (R.remaining input.old) (R.remaining input.new) (take n buf.new)) }
    ensures all { IfOk result (λ n. n < length buf.new → IsAtEnd (R.remaining input.new)) }
{
    let mut at: usize = 0;
    while at < buf.len() {
        let n = input.read(&mut buf[at..])?;
        if n == 0 {
            return Ok(at);
        }
        at += n;
    }
    Ok(at)
}

// The file that the first argument names, where one is named and opened. Further arguments are not looked at.
fn named<R: Env + Files>(rt: &R) -> Option<R::File> {
    let mut word = [0u8; LONGEST_PATH];
    let n = rt.arg(1, &mut word).ok()?;
    let path = str::from_utf8(&word[..n]).ok()?;
    fs::open(rt, path).ok()
}

// The bytes of the file that the first argument names, as many as fit; none where it is not named, not opened or not read.
pub fn load<R: Env + Files>(rt: &R, buf: &mut [u8]) -> usize
    ensures { result ≤ length buf.new }
{
    match named(rt) {
        Some(mut file) => fill(&mut file, buf).unwrap_or(0),
        None => 0,
    }
}
