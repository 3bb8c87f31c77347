// Decoding at an offset, with the instruction left in its byte form.
#![tactic(auto)]

ghost use Rattle.decodeat.specs.DecodeAt.{DecodesInto, DecodesAt};

use answers::returned;
use decodeparts::decode_parts;
use isa::answer::Refusal;

// The instruction at a byte of the code, in its byte form, and its length; below 0, minus a refusal's number, as the C interface has it.
// Refused, nothing is written; room is needed only for a byte form that is to be written.
pub fn decode_at(code: &[u8], offset: usize, instruction: &mut [u8]) -> i32
    ensures { DecodesAt code.now offset instruction.old result instruction.new }
{
    returned::encoded(decode_into(code, offset, instruction))
}

// The same, with its length as a number or the refusal.
fn decode_into(code: &[u8], offset: usize, instruction: &mut [u8]) -> Result<usize, Refusal>
    ensures { DecodesInto code.now offset instruction.old result instruction.new }
{
    let code = code.get(offset..).ok_or(Refusal::BadSize)?;
    let (parts, n) = decode_parts(code)?;
    let room = instruction.first_chunk_mut::<48>().ok_or(Refusal::BadSize)?;
    *room = form::of_parts(parts);
    Ok(n)
}
