// Intel HEX for callers in other languages: a number for an answer, below 0 minus a refusal's. docs/c-interface.md has it.
#![tactic(auto)]

ghost use Rattle.std.specs.Prelude.{◌≡◌, pos, neg_ℤ};
ghost use Rattle.hexrow.specs.Row.{fault_number};
ghost use Rattle.hexcalls.specs.Calls.{row_told, ReadsHex, WritesHex};

use hexfile::ReadError;
use hexrow::Fault;

// The numbers of the C interface.
fn refused(f: Fault) -> i32
    ensures { result ≡ neg_ℤ (pos (fault_number f)) }
{
    match f {
        Fault::Form => -12,
        Fault::Sum => -13,
        Fault::Order => -14,
    }
}

// The number of a row in eight bytes, where there is room for them.
fn tell(row: &mut [u8], k: usize)
    ensures { row.new ≡ row_told k row.old }
{
    if let Some(room) = row.first_chunk_mut::<8>() {
        *room = bits::bytes_of(k as u64);
    }
}

// The kernel of a text at the start of a buffer, and its length. Refused, the buffer is untouched; the number of a bad row is told.
pub fn hex_read(text: &[u8], code: &mut [u8], row: &mut [u8]) -> i32
    ensures { ReadsHex text.now code.old row.old result code.new row.new }
{
    match hexfile::read(text, code) {
        Ok(n) => n as i32,
        Err(ReadError::BadRow(k, f)) => {
            tell(row, k);
            refused(f)
        }
        Err(ReadError::BadSize) => -1,
    }
}

// The text of a kernel at the start of a text, and its length. Refused, nothing is written.
pub fn hex_write(code: &[u8], text: &mut [u8]) -> i32
    ensures { WritesHex code.now text.old result text.new }
{
    match hexfile::write(code, text) {
        Some(n) => n as i32,
        None => -1,
    }
}
