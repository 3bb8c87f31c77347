// The interface for C: decoding at an offset, encoding, a run and Intel HEX, on numbers and byte slices. docs/c-interface.md has the layouts. A
// negative number is minus a refusal's. Any numbers and any lengths may be lent.
#![tactic(auto)]

ghost use Rattle.decodeat.specs.DecodeAt.{DecodesAt};
ghost use Rattle.reedtassel.specs.EncodeForm.{EncodesForm};
ghost use Rattle.runbytes.specs.RunBytes.{lent_of};
ghost use Rattle.reedtassel.specs.Run.{RunsBytes};
ghost use Rattle.hexcalls.specs.Calls.{ReadsHex, WritesHex};

use answers::returned;

// The instruction at a byte of the code, in its byte form, and its length. Refused, nothing is written.
#[unsafe(no_mangle)]
pub extern "C" fn reedtassel_decode(code: &[u8], offset: usize, instruction: &mut [u8]) -> i32
    ensures { DecodesAt code.now offset instruction.old result instruction.new }
{
    decodeat::decode_at(code, offset, instruction)
}

// The bytes of an instruction in its byte form, and their number. Refused, nothing is written.
#[unsafe(no_mangle)]
pub extern "C" fn reedtassel_encode(instruction: &[u8], out: &mut [u8]) -> i32
    ensures { EncodesForm instruction.now out.old result out.new }
{
    returned::encoded(encode::encode_form(instruction, out))
}

// A run on the words that the bytes spell. Refused with 1, nothing is written.
#[unsafe(no_mangle)]
pub extern "C" fn reedtassel_run(
    code: &[u8],
    registers: &mut [u8],
    marks: &mut [u8],
    uniforms: &[u8],
    specials: &[u8],
    start: usize,
    mask: u32,
    budget: usize,
    records: &mut [u8],
    answer: &mut [u8],
) -> i32
    ensures { RunsBytes (lent_of code.now registers.old marks.old uniforms.now specials.now start mask budget records.old answer.old)
        result registers.new marks.new records.new answer.new }
{
    returned::ended(runbytes::run(
        code, registers, marks, uniforms, specials, start, mask, budget, records, answer,
    ))
}

// The kernel of a text in Intel HEX, and its length. Refused, the buffer is untouched; the number of a bad row is told.
#[unsafe(no_mangle)]
pub extern "C" fn reedtassel_hex_read(text: &[u8], code: &mut [u8], row: &mut [u8]) -> i32
    ensures { ReadsHex text.now code.old row.old result code.new row.new }
{
    hexcalls::hex_read(text, code, row)
}

// A kernel as Intel HEX, and the length of the text. Refused, nothing is written.
#[unsafe(no_mangle)]
pub extern "C" fn reedtassel_hex_write(code: &[u8], text: &mut [u8]) -> i32
    ensures { WritesHex code.now text.old result text.new }
{
    hexcalls::hex_write(code, text)
}
