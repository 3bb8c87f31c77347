// The lines of a listing, put into a text at a place.
#![tactic(auto)]

ghost use Rattle.std.specs.Prelude.{◌≡◌, ◌+◌, ◌*◌, ◌≤◌, ◌<◌, length};
ghost use Rattle.std.proofs.lemmas.List.Edits.{sets};
ghost use Rattle.lines.specs.Line.{tail_at, line_at, end_line, refused_line};

mod heading;

use bits::piece;
use isa::answer;
use isa::answer::Refusal;

// How long the line of an instruction of k bytes is, by the place of its diagram in the list.
// A place is a number, as in the definition `tail_at`: the place in the list of the document.
pub fn line_length(place: usize, k: usize) -> usize
    requires { (place < 22) × (k ≤ 8) }
    ensures { (result ≡ 5 + 2 * k + length (tail_at place)) × (result ≤ 36) }
{
    5 + 2 * k + heading::tail_length(place)
}

// A place in a lent buffer, since the caller lends all the room at once: no heap, and `sets` in the clause is of the whole buffer.
pub fn put_line(text: &mut [u8], n: usize, at: usize, bytes: &[u8], place: usize)
    requires { (n + (5 + 2 * length bytes.now + length (tail_at place)) ≤ length text.old) × (at < 65536) × (place < 22) }
    ensures { text.new ≡ sets text.old n (line_at at bytes.now place) }
{
    digits::put_address(text, n, at);
    digits::put_bytes(text, n + 5, bytes);
    heading::put_tail(text, n + 5 + 2 * bytes.len(), place);
}

pub fn put_end(text: &mut [u8], n: usize, at: usize)
    requires { (n + 9 ≤ length text.old) × (at < 65536) }
    ensures { text.new ≡ sets text.old n (end_line at) }
{
    digits::put_address(text, n, at);
    piece::put(text, n + 5, b"end\n");
}

pub fn put_refused(text: &mut [u8], n: usize, at: usize, r: Refusal)
    requires { (n + 15 ≤ length text.old) × (at < 65536) }
    ensures { text.new ≡ sets text.old n (refused_line at r) }
{
    digits::put_address(text, n, at);
    let mut word = *b"refused 0\n";
    word[8] = digits::hex_digit(answer::number(r));
    piece::put(text, n + 5, &word);
}
