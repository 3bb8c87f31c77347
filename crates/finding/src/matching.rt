// The row that a word matches.
ghost use Rattle.std.specs.Prelude.{◌≡◌, false, cond, ◌<◌, ◌*◌, ◌^◌};
ghost use Rattle.isa.specs.Refusal.{refusal};
ghost use Rattle.rows.specs.Table.{table};
ghost use Rattle.finding.specs.First.{agrees_with, length_by, first_of, FoundWithin};

use crate::low::rows_with;
use crate::ones_of;
use isa::answer::Refusal;
use rows::{Row, row_at};

// The fixed bits that are lent agree with the word w; k has ones at the bits that are lent.
fn agree(r: Row, w: u64, k: u64) -> bool
    ensures { result ≡ agrees_with k r w }
{
    (w & r.fixed) == (r.value & k)
}

// The length of a row, which is two bytes shorter where its bit L is 0 in the word.
fn length_by(r: Row, w: u64) -> usize
    requires { 1 < r.bytes }
    ensures { result ≡ length_by r w }
{
    if w & r.bit_l == r.bit_l {
        r.bytes
    } else {
        r.bytes - 2
    }
}

// The first row that matches the word w, of which n bytes are lent and the others are zero.
pub fn find_first(w: u64, n: usize) -> Result<(usize, usize), Refusal>
    requires { (n < 9) × (w < 2 ^ (8 * n)) }
    ensures { (result ≡ first_of table 0 false w n) × FoundWithin result }
{
    if n == 0 {
        return Err(Refusal::CutShort);
    }
    let k = ones_of(n);
    let mut why = Refusal::NoDiagram;
    for i in rows_with(w % 128) {
        let r = row_at(i);
        if agree(r, w, k) {
            let bytes = length_by(r, w);
            if bytes <= n {
                return Ok((i, bytes));
            }
            why = Refusal::CutShort;
        }
    }
    Err(why)
}
