// The line of a comparison's answer, without a line feed.
#![tactic(auto)]

ghost use Rattle.std.specs.Prelude.{◌≡◌, ◌<◌, length};
ghost use Rattle.isa.specs.Text.{ascii};
ghost use Rattle.comparison.specs.AnswerLine.{line_of, at_address, written_of, line_left, Printable};

mod word;

use bits::piece;
use comparison::Comparison;

fn write_same(text: &mut [u8]) -> Option<usize>
    ensures { (result ≡ written_of (ascii "same") (length text.old))
        × (text.new ≡ line_left (ascii "same") text.old) }
{
    if text.len() < 4 {
        return None;
    }
    piece::put(text, 0, b"same");
    Some(4)
}

// `at` is the address that is written, and no place in the text: a line begins at its start.
fn write_at(text: &mut [u8], at: usize, words: &[u8]) -> Option<usize>
    requires { at < 65536 }
    ensures { (result ≡ written_of (at_address at words.now) (length text.old))
        × (text.new ≡ line_left (at_address at words.now) text.old) }
{
    let n = 5 + words.len();
    if text.len() < n {
        return None;
    }
    digits::put_address(text, 0, at);
    piece::put(text, 5, words);
    Some(n)
}

// Writes the line at the start of the text, and answers its length; where the text is too short for it, writes nothing.
#[tactic(auto, unfolding(comparison::specs::AnswerLine::line_of))]
pub fn write(c: Comparison, text: &mut [u8]) -> Option<usize>
    requires { Printable c }
    ensures { (result ≡ written_of (line_of c) (length text.old)) × (text.new ≡ line_left (line_of c) text.old) }
{
    match c {
        Comparison::Same => write_same(text),
        Comparison::Differs(at, field) => {
            let words = word::of_field(field);
            write_at(text, at, &words.text[..words.length])
        }
        Comparison::Ended(at, k) => write_at(text, at, &word::of_ended(k)),
        Comparison::Refused(at, r, k) => write_at(text, at, &word::of_refused(r, k)),
    }
}
