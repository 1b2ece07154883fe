// The head of the shape: word 0, the eight sizes and the length of the whole. It asks nothing of the words.
#![tactic(auto)]

ghost use Rattle.std.specs.Prelude.{◌≡◌, ◌<◌, eqb};
ghost use Rattle.numbers.specs.Verdicts.{verdict_of};
ghost use Rattle.pack.specs.Image.{word, head_words, size_words};
ghost use Rattle.order.specs.Shape.{each, size_rule, head_rules};

use numbers::WrongWord;
use order::rule;
use pack::image;

#[tactic(auto, unfolding(order::specs::Shape::size_rule))]
fn size_rule(img: &[u16], i: usize) -> Result<(), WrongWord>
    requires { i < head_words }
    ensures { verdict_of result ≡ size_rule img.now i }
{
    rule(rules::size_right(img, i), i)
}

#[tactic(auto, using(order::proofs::Laws::each_wrong, order::proofs::Laws::each_right, order::proofs::Laws::each_over))]
pub fn sizes(img: &[u16]) -> Result<(), WrongWord>
    ensures { verdict_of result ≡ each (size_rule img.now) size_words 1 }
{
    for i in 1..image::HEAD_WORDS {
        size_rule(img, i)?;
    }
    Ok(())
}

// Whether word 0 is there and is 1.
#[tactic(auto, using(order::proofs::Laws::no_word))]
fn first_right(img: &[u16]) -> bool
    ensures { result ≡ eqb (word img.now 0) 1 }
{
    0 < img.len() && image::word_at(img, 0) == 1
}

// Word 0, the sizes and the total length.
#[tactic(auto, using(order::proofs::Laws::then_wrong, order::proofs::Laws::then_good, order::proofs::Laws::length_short, order::proofs::Laws::length_long, order::proofs::Laws::length_right), unfolding(order::specs::Shape::head_rules))]
pub fn head(img: &[u16]) -> Result<(), WrongWord>
    ensures { verdict_of result ≡ head_rules img.now }
{
    rule(first_right(img), 0)?;
    sizes(img)?;
    let needed = image::needed(img);
    if img.len() < needed {
        return Err(WrongWord(img.len()));
    }
    if needed < img.len() {
        return Err(WrongWord(needed));
    }
    Ok(())
}
