// Turn after turn.
ghost use Rattle.std.specs.Prelude.{◌≡◌, ◌-◌, ◌*◌, ◌/◌, ◌<◌, ◌≤◌, min, length};
ghost use Rattle.numbers.specs.Verdicts.{Good};
ghost use Rattle.pack.specs.Image.{states};
ghost use Rattle.shape.specs.Shape.{shape};
ghost use Rattle.records.specs.Inner.{Stacked, KeptTurn, standing, bounded, told, parsed_of};
ghost use Rattle.classes.specs.Ready.{Ready};
ghost use Rattle.look.specs.Inner.{Known, Within};
ghost use Rattle.look.specs.Look.{look};
ghost use Rattle.records.specs.Parse.{step, run, start, room_of, tree_after};

use look::{ParseError, Spot};
use records::{Parsed, Parser, Stack, Turned};

// Tree room: the whole records that fit.
fn room_of(words: usize) -> usize
    ensures { result ≡ min (words / 4) 65535 }
{
    (words / records::RECORD_WORDS).min(numbers::MOST_RECORDS)
}

// One turn: look, and do what the cell says.
fn turn(
    img: &[u16],
    text: &[u8],
    parser: &mut Parser,
    known: &mut [u64; 128],
    tree: &mut [u16],
    allowance: usize,
) -> Result<Turned, ParseError>
    requires ready { Ready img.now }
    requires text_len_bound { length text.now ≤ 65535 }
    requires stacked { Stacked (states img.now) parser.old.stack }
    requires known { Known img.now known.old }
    requires tree_room { parser.old.room * 4 ≤ length tree.old }
    requires within { Within text.now allowance parser.old.at }
    ensures result_after { told result (standing parser.new tree.new) ≡ bounded (parser.old.room - parser.old.records) (step img.now (look img.now text.now allowance) (standing parser.old tree.old)) }
    ensures kept_turn { KeptTurn img.now text.now allowance parser.old tree.old parser.new known.new tree.new result }
{
    let top = usize::from(parser.stack.top());
    let next = look::look(img, text, known, allowance, top, parser.at);
    parser.at = next.at;
    let token = next.found?;
    act::perform(img, parser, tree, token)
}

// The numbers given back.
fn finish(ended: Result<(), ParseError>, parser: &Parser) -> Parsed
    requires { parser.now.at.moves < 4294967296 }
    ensures { result ≡ parsed_of ended parser.now.records parser.now.at }
{
    let (code, length, terminal) = match ended {
        Ok(()) => (numbers::DONE, 0, 0),
        Err(ParseError::NoTerminal) => (numbers::NO_TERMINAL, 0, 0),
        Err(ParseError::Unexpected { length, terminal }) => (numbers::UNEXPECTED, length, terminal),
        Err(ParseError::NoGroup { length }) => (numbers::NO_GROUP, length, 0),
        Err(ParseError::Stuck) => (numbers::STUCK, 0, 0),
        Err(ParseError::TreeFull) => (numbers::TREE_FULL, 0, 0),
        Err(ParseError::StackFull) => (numbers::STACK_FULL, 0, 0),
        Err(ParseError::AllowanceUsedUp) => (numbers::ALLOWANCE_USED_UP, 0, 0),
    };
    Parsed {
        code,
        place: parser.at.place,
        length,
        terminal,
        records: parser.records,
        moves: parser.at.moves as u32,
    }
}

// The run of a text by a pack of good shape: turn after turn.
pub fn run(img: &[u16], text: &[u8], tree: &mut [u16], allowance: u32) -> Parsed
    requires good_shape { shape img.now ≡ Good }
    requires text_len_bound { length text.now ≤ 65535 }
    ensures value { result ≡ (run img.now (look img.now text.now allowance) (room_of tree.old) start).parsed }
    ensures tree_after { tree.new ≡ tree_after tree.old (run img.now (look img.now text.now allowance) (room_of tree.old) start) }
{
    let mut parser = Parser {
        stack: Stack::new(),
        room: room_of(tree.len()),
        records: 0,
        at: Spot { place: 0, moves: 0 },
    };
    let mut known = [0u64; 128];
    loop {
        match turn(img, text, &mut parser, &mut known, tree, allowance as usize) {
            Ok(Turned::Went) => {}
            Ok(Turned::Accepted) => return finish(Ok(()), &parser),
            Err(e) => return finish(Err(e), &parser),
        }
    }
}
