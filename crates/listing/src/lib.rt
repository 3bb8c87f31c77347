// The listing of a kernel as text: a line for each instruction, and a last line that says where it stopped.
#![tactic(auto)]

ghost use Rattle.std.specs.Prelude.{◌≡◌, length};
ghost use Rattle.listing.specs.Listing.{listed_of, listing_left};

mod line;
mod text;

use isa::answer::Refusal;

// Lists the code at the start of the text, and answers the number of bytes written. Where the text is too short for it, nothing is
// written.
pub fn list(code: &[u8], text: &mut [u8]) -> Result<usize, Refusal>
    ensures { (result ≡ listed_of code.now (length text.old))
        × (text.new ≡ listing_left code.now text.old) }
{
    let n = text::measure(code);
    if n <= text.len() {
        text::write(code, text);
        Ok(n)
    } else {
        Err(Refusal::BadSize)
    }
}
