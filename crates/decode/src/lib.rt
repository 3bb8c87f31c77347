// Decoding one instruction from the start of some bytes. Any slice may be lent; the first eight bytes are looked at, at most.
#![tactic(auto)]

ghost use Rattle.std.specs.Prelude.{◌≡◌, ℕ, ◌<◌, ◌^◌};
ghost use Rattle.isa.specs.Find.{find_of};
ghost use Rattle.isa.specs.Decode.{decode_of};
ghost use Rattle.decode.specs.With.{ReadsFound};

use finding::matching;
use isa::answer::Refusal;
use isa::instruction::Instruction;

// What read makes of the instruction, with its length, or the refusal. It is given the place of the diagram in the list, and the word.
pub fn decode_with<T, F: FnOnce(usize, u64) -> Option<T>>(
    code: &[u8],
    read: F,
) -> Result<(T, usize), Refusal>
    requires { (place w : ℕ) → place < 22 → w < 2 ^ 64 → F.pre read place w }
    ensures { ReadsFound (F.post read) (find_of code.now) code.now result }
{
    let w = bits::word(code);
    let (place, n) = matching::find_first(w, finding::held(code.len()))?;
    let x = read(place, w & finding::ones_of(n)).ok_or(Refusal::NoMeaning)?;
    Ok((x, n))
}

// The instruction with its length, or the refusal.
pub fn decode(code: &[u8]) -> Result<(Instruction, usize), Refusal>
    ensures { result ≡ decode_of code.now }
{
    decode_with(code, reading::read)
}
