// The entry points for C: include/zhgarelli.h declares them. A slice is a pointer and a length; the numbers given back go to the front of
// `out`, in the order that each function names, and it answers how many they are. Where `out` has no room for them nothing is written
// there, and the answer is 0.
#![tactic(auto)]

ghost use Rattle.std.specs.Prelude.{◌≡◌, length};
ghost use Rattle.shape.specs.Shape.{shape};
ghost use Rattle.conditions.specs.Check.{check};
ghost use Rattle.scan.specs.Scan.{scan_alone};
ghost use Rattle.parse.specs.Parse.{parse, tree_after};
ghost use Rattle.answers.specs.Numbers.{told, written, of_shape, of_scan, of_text, of_check, of_parse, of_part, part_of};
ghost use Rattle.numbers.specs.Front.{buffer_after};
ghost use Rattle.text.specs.declared.Form.TheVariants.{One, Two};
ghost use Rattle.text.specs.Reader.{read};
ghost use Rattle.text.specs.Reform.{reform};
ghost use Rattle.text.specs.Writer.{write};
ghost use Rattle.print.specs.Print.{print};

// Shape: code and place.
#[unsafe(no_mangle)]
pub extern "C" fn zhg_shape(img: &[u16], out: &mut [u64]) -> usize
    ensures value { result ≡ told out.old (of_shape (shape img.now)) }
    ensures out_after { out.new ≡ written out.old (of_shape (shape img.now)) }
{
    let v = shape::shape(img);
    answers::put_shape(out, v)
}

// The scan called by itself: code, place, set, length and moves.
#[unsafe(no_mangle)]
pub extern "C" fn zhg_scan(
    img: &[u16],
    text: &[u8],
    start: usize,
    set: u64,
    allowance: u32,
    out: &mut [u64],
) -> usize
    ensures value { result ≡ told out.old (of_scan (scan_alone img.now text.now start set allowance)) }
    ensures out_after { out.new ≡ written out.old (of_scan (scan_alone img.now text.now start set allowance)) }
{
    let s = scan::scan(img, text, start, set, allowance);
    answers::put_scan(out, s)
}

// Reads a pack text: code and number; the image goes to the front of the buffer.
#[unsafe(no_mangle)]
pub extern "C" fn zhg_read(text: &[u8], buffer: &mut [u16], out: &mut [u64]) -> usize
    ensures value { result ≡ told out.old (of_text (read text.now buffer.old)) }
    ensures out_after { out.new ≡ written out.old (of_text (read text.now buffer.old)) }
    ensures buffer_after { buffer.new ≡ buffer_after buffer.old (read text.now buffer.old) }
{
    let read = reader::read(text, buffer);
    answers::put_answer(out, read)
}

// Writes an image as pack text of form 1: code and number; the text goes to the front of the buffer.
#[unsafe(no_mangle)]
pub extern "C" fn zhg_write(img: &[u16], buffer: &mut [u8], out: &mut [u64]) -> usize
    ensures value { result ≡ told out.old (of_text (write One img.now buffer.old)) }
    ensures out_after { out.new ≡ written out.old (of_text (write One img.now buffer.old)) }
    ensures buffer_after { buffer.new ≡ buffer_after buffer.old (write One img.now buffer.old) }
{
    let wrote = writer::write(img, buffer);
    answers::put_answer(out, wrote)
}

// Writes an image as pack text of form 2: code and number; the text goes to the front of the buffer.
#[unsafe(no_mangle)]
pub extern "C" fn zhg_write2(img: &[u16], buffer: &mut [u8], out: &mut [u64]) -> usize
    ensures value { result ≡ told out.old (of_text (write Two img.now buffer.old)) }
    ensures out_after { out.new ≡ written out.old (of_text (write Two img.now buffer.old)) }
    ensures buffer_after { buffer.new ≡ buffer_after buffer.old (write Two img.now buffer.old) }
{
    let wrote = writer::write2(img, buffer);
    answers::put_answer(out, wrote)
}

// Moves a pack text from form 1 to form 2: code and number; the text goes to the front of the buffer.
#[unsafe(no_mangle)]
pub extern "C" fn zhg_form2(text: &[u8], buffer: &mut [u8], out: &mut [u64]) -> usize
    ensures value { result ≡ told out.old (of_text (reform One Two text.now buffer.old)) }
    ensures out_after { out.new ≡ written out.old (of_text (reform One Two text.now buffer.old)) }
    ensures buffer_after { buffer.new ≡ buffer_after buffer.old (reform One Two text.now buffer.old) }
{
    let moved = moves::to_form2(text, buffer);
    answers::put_answer(out, moved)
}

// Moves a pack text from form 2 to form 1: code and number; the text goes to the front of the buffer.
#[unsafe(no_mangle)]
pub extern "C" fn zhg_form1(text: &[u8], buffer: &mut [u8], out: &mut [u64]) -> usize
    ensures value { result ≡ told out.old (of_text (reform Two One text.now buffer.old)) }
    ensures out_after { out.new ≡ written out.old (of_text (reform Two One text.now buffer.old)) }
    ensures buffer_after { buffer.new ≡ buffer_after buffer.old (reform Two One text.now buffer.old) }
{
    let moved = moves::to_form1(text, buffer);
    answers::put_answer(out, moved)
}

// The check of a pack: code, number and the two places.
#[unsafe(no_mangle)]
pub extern "C" fn zhg_check(img: &[u16], out: &mut [u64]) -> usize
    ensures value { result ≡ told out.old (of_check (check img.now)) }
    ensures out_after { out.new ≡ written out.old (of_check (check img.now)) }
{
    let c = checker::check(img);
    answers::put_check(out, c)
}

// The parse of a text: code, place, length, terminal, records and moves; the records go to the front of the tree.
#[unsafe(no_mangle)]
pub extern "C" fn zhg_parse(
    img: &[u16],
    text: &[u8],
    tree: &mut [u16],
    allowance: u32,
    out: &mut [u64],
) -> usize
    ensures value { result ≡ told out.old (of_parse (parse img.now text.now tree.old allowance).parsed) }
    ensures out_after { out.new ≡ written out.old (of_parse (parse img.now text.now tree.old allowance).parsed) }
    ensures tree_after { tree.new ≡ tree_after tree.old (parse img.now text.now tree.old allowance) }
{
    let p = parse::parse(img, text, tree, allowance);
    answers::put_parse(out, p)
}

// A leaf's bytes: start and length of that part of the text.
#[unsafe(no_mangle)]
pub extern "C" fn zhg_leaf(text: &[u8], row: &[u16], out: &mut [u64]) -> usize
    ensures value { result ≡ told out.old (of_part (part_of text.now row.now)) }
    ensures out_after { out.new ≡ written out.old (of_part (part_of text.now row.now)) }
{
    let part = answers::part_of(text, row);
    answers::put_part(out, part)
}

// Prints the derivation that a tree's records stand for: code and number; the bytes go to the front of the buffer. The words of the tree
// are all of it.
#[unsafe(no_mangle)]
pub extern "C" fn zhg_print(text: &[u8], tree: &[u16], buffer: &mut [u8], out: &mut [u64]) -> usize
    ensures value { result ≡ told out.old (of_text (print text.now tree.now (length buffer.old))) }
    ensures out_after { out.new ≡ written out.old (of_text (print text.now tree.now (length buffer.old))) }
    ensures buffer_after { buffer.new ≡ buffer_after buffer.old (print text.now tree.now (length buffer.old)) }
{
    let printed = printer::print(text, tree, buffer);
    answers::put_answer(out, printed)
}
