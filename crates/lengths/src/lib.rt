// The length of an instruction's encoding.
#![tactic(auto)]

ghost use Rattle.std.specs.Prelude.{◌≡◌, ◌-◌, ◌<◌};
ghost use Rattle.isa.specs.Decode.{row_at};
ghost use Rattle.isa.specs.Diagram.{field_mask};
ghost use Rattle.isa.specs.Parts.{length_for};

use isa::parts::Parts;
use rows::row_at;

// The place in the list of the diagram of a kind: kinds begin with 1. A number, since `length_for` answers for any kind, 0 too.
fn place_of(kind: u8) -> usize
    ensures { result ≡ kind - 1 }
{
    usize::from(kind.saturating_sub(1))
}

// The length and the bit L of the row at a place. Each asked for alone, they are a few comparisons in the compiled code.
// A place is a number, as in the definition: `row_at` and `read_at` take the place in the list of the document.
fn bytes_at(place: usize) -> usize
    requires { place < 22 }
    ensures { result ≡ (row_at place).bytes }
{
    row_at(place).bytes
}

fn bit_l_at(place: usize) -> u64
    requires { place < 22 }
    ensures { result ≡ field_mask (row_at place).fields "L" }
{
    row_at(place).bit_l
}

// The number of bytes of the encoding, by the row of its kind: two less where it has a bit L that is 0; no diagram has a kind above 22.
pub fn length_of(p: Parts) -> usize
    ensures { (result ≡ length_for p) × (result < 9) }
{
    let place = place_of(p.kind);
    if 22 <= place {
        return 0;
    }
    let n = bytes_at(place);
    if bit_l_at(place) == 0 {
        n
    } else if p.l == 0 {
        n - 2 // the short form
    } else {
        n // the long form
    }
}
