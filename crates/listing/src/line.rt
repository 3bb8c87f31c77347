// The line of an instruction, by the place of its diagram.
ghost use Rattle.std.specs.Prelude.{◌≡◌, ◌+◌, ◌*◌, ◌≤◌, ◌<◌, length};
ghost use Rattle.std.proofs.lemmas.List.Edits.{sets};
ghost use Rattle.isa.specs.Parts.{place_of};
ghost use Rattle.lines.specs.Line.{tail_at, line_of};

use isa::instruction::Instruction;

pub fn line_length(i: Instruction, k: usize) -> usize
    requires { k ≤ 8 }
    ensures { (result ≡ 5 + 2 * k + length (tail_at (place_of i))) × (result ≤ 36) }
{
    lines::line_length(parts::place(i), k)
}

// A place in a lent buffer, since the caller lends all the room at once: no heap, and `sets` in the clause is of the whole buffer.
pub fn put_line(text: &mut [u8], n: usize, at: usize, bytes: &[u8], i: Instruction)
    requires { (n + (5 + 2 * length bytes.now + length (tail_at (place_of i))) ≤ length text.old) × (at < 65536) }
    ensures { text.new ≡ sets text.old n (line_of at bytes.now i) }
{
    lines::put_line(text, n, at, bytes, parts::place(i));
}
