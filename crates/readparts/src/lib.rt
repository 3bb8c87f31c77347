// Reading the word of a diagram into the parts of its instruction, numbers that are soon laid out. What takes an instruction apart is inlined
// into the reader, so that the compiler makes no instruction in between.
#![tactic(auto)]

ghost use Rattle.std.specs.Prelude.{◌≡◌, ◌<◌};
ghost use Rattle.isa.specs.Parts.{parts_of};
ghost use Rattle.isa.specs.Decode.{read_at};
ghost use Rattle.readparts.specs.Parts.{parts_read};

use isa::instruction::Instruction;
use isa::parts::Parts;
use parts::parts_of;
use reading::{Make, read_into};

// The parts of the instruction.
struct IntoParts;

impl Make for IntoParts {
    type Made = Parts;

    ghost made = { parts_of };

    #[inline(always)]
    fn make(i: Instruction) -> Parts {
        parts_of(i)
    }
}

// The parts of the word w, read by the diagram at a place of the list: a number, as in the definition `read_at`.
pub fn read(place: usize, w: u64) -> Option<Parts>
    requires { place < 22 }
    ensures { result ≡ parts_read (read_at place w) }
{
    read_into::<IntoParts>(place, w)
}
