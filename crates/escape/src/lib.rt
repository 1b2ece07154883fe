// The bytes of a leaf as they are printed: which of them get a backslash, and how many there are then.
#![tactic(auto)]

ghost use Rattle.std.specs.Prelude.{◌≡◌, true, ◌+◌, ◌<◌, length};
ghost use Rattle.print.specs.Print.{special, escaped_byte, escaped};

// Whether a byte is preceded by a backslash.
#[tactic(auto, unfolding(print::specs::Print::special))]
pub fn special(b: u8) -> bool
    ensures { result ≡ special b }
{
    b == b'[' || b == b']' || b == b'\\'
}

// The bytes that are printed for a byte.
#[tactic(auto, unfolding(print::specs::Print::escaped_byte))]
fn width(b: u8) -> usize
    ensures { result ≡ length (escaped_byte b) }
{
    if special(b) {
        return 2;
    }
    1
}

// The bytes that are printed for a leaf's bytes.
pub fn bytes_size(bytes: &[u8]) -> usize
    ensures { result ≡ length (escaped bytes.now) }
{
    let mut size: usize = 0;
    for b in bytes {
        size += width(*b);
    }
    size
}
