// The heading words.
ghost use Rattle.std.specs.Prelude.{◌≡◌, ◌+◌, ◌≤◌, ◌<◌, length};
ghost use Rattle.std.proofs.lemmas.List.Edits.{sets};
ghost use Rattle.lines.specs.Line.{tail_at};

use bits::piece;

// The word of the diagram at a place, between the space before it and the end of its line.
// A place is a number, as in the definition `tail_at`: the place in the list of the document.
fn tail(place: usize) -> &'static [u8]
    requires { place < 22 }
    ensures { (result.now ≡ tail_at place) × (length result.now ≤ 15) }
{
    match place {
        0 => b" mov16\n",
        1 => b" mov32\n",
        2 => b" get_sr\n",
        3 => b" iadd\n",
        4 => b" imadd\n",
        5 => b" bfi\n",
        6 => b" bfeil\n",
        7 => b" extr\n",
        8 => b" shlhi\n",
        9 => b" shrhi\n",
        10 => b" asr\n",
        11 => b" asrh\n",
        12 => b" bitop\n",
        13 => b" bitrev\n",
        14 => b" popcount\n",
        15 => b" ffs\n",
        16 => b" jmp_exec_any\n",
        17 => b" jmp_exec_none\n",
        18 => b" pop_exec\n",
        19 => b" if_icmp\n",
        20 => b" while_icmp\n",
        _ => b" else_icmp\n",
    }
}

pub fn tail_length(place: usize) -> usize
    requires { place < 22 }
    ensures { (result ≡ length (tail_at place)) × (result ≤ 15) }
{
    tail(place).len()
}

pub fn put_tail(text: &mut [u8], n: usize, place: usize)
    requires { (place < 22) × (n + length (tail_at place) ≤ length text.old) }
    ensures { text.new ≡ sets text.old n (tail_at place) }
{
    piece::put(text, n, tail(place));
}
