// A kernel, decoded and encoded again.
#![tactic(auto)]

ghost use Rattle.std.specs.Prelude.{◌≡◌, length};
ghost use Rattle.encode.specs.Encode.{encoded_of, encoding_left};
ghost use Rattle.recode.specs.Recode.{answer_of, left_of};

use bits::piece;
use isa::answer::Refusal;
use isa::instruction::Instruction;

// Encodes an instruction, by way of its byte form, at the start of the buffer.
fn encode_again(i: Instruction, out: &mut [u8]) -> Result<usize, Refusal>
    ensures { (result ≡ encoded_of i out.old) × (out.new ≡ encoding_left i out.old) }
{
    encode::encode_form(&form::to_bytes(i), out)
}

// Writes the code to the start of the buffer, instruction by instruction, each decoded and encoded again; from the first refusal
// on, as it is. Answers the number of bytes. A buffer that is shorter than the code is refused, and nothing is written.
// With room for its bytes, an instruction that was decoded is never refused.
pub fn recode(code: &[u8], out: &mut [u8]) -> Result<usize, Refusal>
    ensures { (result ≡ answer_of (length code.now) (length out.old))
        × (out.new ≡ left_of code.now out.old) }
{
    if out.len() < code.len() {
        return Err(Refusal::BadSize);
    }
    let mut at = 0;
    while let Ok((i, n)) = decode::decode(&code[at..]) {
        encode_again(i, &mut out[at..])?;
        at += n;
    }
    piece::put(out, at, &code[at..]);
    Ok(code.len())
}
