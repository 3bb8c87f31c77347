// Two kernels are compared: both are walked side by side, each by a reader. What stands at the two places of one turn says whether
// the walks go on or what the answer is.
#![tactic(auto)]

pub mod reader;

ghost use Rattle.std.specs.Prelude.{◌≡◌, length};
ghost use Rattle.comparison.specs.Compare.{compare_of};
ghost use Rattle.comparison.specs.AnswerLine.{line_of, written_of, line_left};
ghost use Rattle.turns.specs.Turn.{turn_between};
ghost use Rattle.compare.specs.Here.{here_at, walks_of};

use crate::reader::Reader;
use comparison::Comparison;
use std::ops::ControlFlow;

fn compare_here<'a, 'b>(first: Reader<'a>, second: Reader<'b>) -> ControlFlow<Comparison, usize>
    ensures { result ≡ turn_between (here_at first.entry.code.now first.entry.address)
        (here_at second.entry.code.now second.entry.address) first.entry.address }
{
    turns::decide(first.here(), second.here(), first.address)
}

// One pair of readers goes through both walks, from their starts.
fn side_by_side<'a, 'b>(first: &'a [u8], second: &'b [u8]) -> Comparison
    ensures { result ≡ walks_of first.now second.now }
{
    let mut a = Reader::new(first);
    let mut b = Reader::new(second);
    loop {
        match compare_here(a, b) {
            ControlFlow::Continue(n) => {
                a = a.after(n);
                b = b.after(n);
            }
            ControlFlow::Break(answer) => return answer,
        }
    }
}

// Code that is too long is refused before the walks, the first kernel's if both are.
pub fn compare(first: &[u8], second: &[u8]) -> Comparison
    ensures { result ≡ compare_of first.now second.now }
{
    match turns::begin(first.len(), second.len()) {
        ControlFlow::Continue(()) => side_by_side(first, second),
        ControlFlow::Break(refused) => refused,
    }
}

// The line of the comparison, without a line feed, at the start of the text, and its length; where the text is too short for it,
// nothing is written.
pub fn compare_line(first: &[u8], second: &[u8], text: &mut [u8]) -> Option<usize>
    ensures { (result ≡ written_of (line_of (compare_of first.now second.now)) (length text.old))
        × (text.new ≡ line_left (line_of (compare_of first.now second.now)) text.old) }
{
    compareline::write(compare(first, second), text)
}
