// The text of a kernel in Intel HEX, put into a buffer.
#![tactic(auto)]

ghost use Rattle.std.specs.Prelude.{◌≡◌, ◌+◌, ◌*◌, ◌/◌, ◌≤◌, length};
ghost use Rattle.std.proofs.lemmas.List.Edits.{sets};
ghost use Rattle.hexwrite.specs.Write.{hex_of};

mod row;

use bits::piece;

// The number of characters of the text of n bytes: 12 and two for each byte in a row, and 12 of the end row.
pub fn size(n: usize) -> usize
    requires { n ≤ 8192 }
    ensures { result ≡ 12 * ((n + 15) / 16) + 2 * n + 12 }
{
    12 * ((n + 15) / 16) + 2 * n + 12
}

pub fn put_rows(code: &[u8], text: &mut [u8])
    requires { (length code.now ≤ 8192) × (length (hex_of code.now) ≤ length text.old) }
    ensures { text.new ≡ sets text.old 0 (hex_of code.now) }
{
    let mut n = 0;
    for (i, row) in code.chunks(16).enumerate() {
        row::put_row(text, n, 16 * i, row);
        n += 2 * row.len() + 12;
    }
    piece::put(text, n, b":00000001FF\n");
}
