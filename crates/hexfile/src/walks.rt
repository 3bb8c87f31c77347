// The rows of a text, once to see whether all are right and once to take their bytes.
ghost use Rattle.std.specs.Prelude.{◌≡◌, ◌≤◌, length};
ghost use Rattle.std.proofs.lemmas.List.Edits.{sets};
ghost use Rattle.hexfile.specs.Read.{kernel, read_of};
ghost use Rattle.hexfile.specs.Rows.{seen_by, kernel_in};

use crate::ReadError;
use hexrow::{Fault, Row, row_at};

// The number of bytes of the kernel that the text holds.
pub fn check(text: &[u8]) -> Result<usize, ReadError>
    ensures { result ≡ seen_by (read_of text.now) }
{
    let mut row = 1;
    let mut n = 0;
    let mut at = 0;
    // A `while`: it goes on by the size of the row at hand, which no range or iterator knows.
    while at < text.len() {
        match row_at(text, at, n) {
            Ok(Row::Data { count, size }) => {
                row += 1;
                n += count;
                at += size;
            }
            Ok(Row::End { size }) => {
                if at + size == text.len() {
                    return Ok(n);
                }
                return Err(ReadError::BadRow(row + 1, Fault::Order));
            }
            Err(f) => return Err(ReadError::BadRow(row, f)),
        }
    }
    Err(ReadError::BadRow(row, Fault::Order))
}

// Puts the kernel of a text that holds one into a buffer.
pub fn fill(text: &[u8], out: &mut [u8])
    requires { (read_of text.now ≡ kernel (kernel_in (read_of text.now))) × (length (kernel_in (read_of text.now)) ≤ length out.old) }
    ensures { out.new ≡ sets out.old 0 (kernel_in (read_of text.now)) }
{
    let mut n = 0;
    let mut at = 0;
    // A `while`: it goes on by the size of the row at hand, which no range or iterator knows.
    while at < text.len() {
        match row_at(text, at, n) {
            Ok(Row::Data { count, size }) => {
                hexpairs::put(out, n, text, at + 9, count);
                n += count;
                at += size;
            }
            Ok(Row::End { .. }) => return,
            Err(_) => return,
        }
    }
}
