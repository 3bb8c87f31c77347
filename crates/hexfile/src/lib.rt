// Intel HEX: a kernel read from its text, and written as text.
#![tactic(auto)]

ghost use Rattle.std.specs.Prelude.{◌≡◌, length};
ghost use Rattle.hexfile.specs.Read.{reading_of, kernel_left};
ghost use Rattle.hexfile.specs.Write.{writing_of, text_left};

mod walks;

use hexrow::Fault;

// The most bytes of a kernel in this form.
pub const LIMIT: usize = 8192;

// Why a text is refused: the first bad row, counted from 1, and why; or its kernel is too long, or has no room. The definitions of hexcalls
// have the number of each refusal.
#[derive(Clone, Copy, PartialEq, Eq)]
pub enum ReadError {
    BadRow(usize, Fault),
    BadSize,
}

// Reads the kernel of a text into the start of a buffer, and answers its number of bytes. Refused, nothing is written.
pub fn read(text: &[u8], out: &mut [u8]) -> Result<usize, ReadError>
    ensures { (result ≡ reading_of text.now (length out.old))
        × (out.new ≡ kernel_left text.now out.old) }
{
    let n = walks::check(text)?;
    if LIMIT < n || out.len() < n {
        return Err(ReadError::BadSize);
    }
    walks::fill(text, out);
    Ok(n)
}

// Writes the text of a kernel at the start of a text, and answers its number of characters; none, and nothing is written, where the kernel
// is too long or its text has no room.
pub fn write(code: &[u8], text: &mut [u8]) -> Option<usize>
    ensures { (result ≡ writing_of code.now (length text.old))
        × (text.new ≡ text_left code.now text.old) }
{
    if LIMIT < code.len() {
        return None;
    }
    let n = hexwrite::size(code.len());
    if text.len() < n {
        return None;
    }
    hexwrite::put_rows(code, text);
    Some(n)
}
