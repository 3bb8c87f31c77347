// Encoding one instruction: its word is put together, decoded again, and compared with what was given.
#![tactic(auto)]

ghost use Rattle.std.specs.Prelude.{◌≡◌};
ghost use Rattle.encode.specs.Encode.{is_found, encoded_of, encoding_left, encoded_from, left_from};

use bits::piece;
use isa::answer::Refusal;
use isa::instruction::Instruction;

fn is_found(d: Result<(Instruction, usize), Refusal>, i: Instruction, n: usize) -> bool
    ensures { result ≡ is_found d i n }
{
    match d {
        Ok((j, m)) => m == n && parts::same(j, i),
        Err(_) => false,
    }
}

// Writes the instruction's bytes at the start of the buffer, and answers their number. Refused, it writes nothing.
pub fn encode(i: Instruction, out: &mut [u8]) -> Result<usize, Refusal>
    ensures { (result ≡ encoded_of i out.old) × (out.new ≡ encoding_left i out.old) }
{
    let n = lengths::length_of(parts::parts_of(i));
    let b = bits::bytes_of(writing::word_for(i));
    let accepted = is_found(decode::decode(&b[..n]), i, n);
    if !accepted {
        return Err(Refusal::NoEncoding);
    }
    if out.len() < n {
        return Err(Refusal::ShortBuffer);
    }
    piece::put(out, 0, &b[..n]);
    Ok(n)
}

// The same, of an instruction in its byte form.
pub fn encode_form(form: &[u8], out: &mut [u8]) -> Result<usize, Refusal>
    ensures { (result ≡ encoded_from form.now out.old)
        × (out.new ≡ left_from form.now out.old) }
{
    let i = form::from_bytes(form).ok_or(Refusal::NoEncoding)?;
    encode(i, out)
}
