// The walk through the code, once to measure the listing and once to write it.
// The loops count by hand: a step is as long as its instruction, so an iterator over the code would keep this same index, no plainer.
ghost use Rattle.std.specs.Prelude.{◌≡◌, ◌≤◌, length};
ghost use Rattle.std.proofs.lemmas.List.Edits.{sets};
ghost use Rattle.listing.specs.Listing.{listing_of};

use crate::line;
use walk::decoded_at;

// How long the listing is. The last line has 9 characters where it says `end`, and 15 where it says `refused`.
pub fn measure(code: &[u8]) -> usize
    ensures { result ≡ length (listing_of code.now) }
{
    let mut n = 0;
    let mut at = 0;
    while at < code.len() {
        match decoded_at(code, at) {
            Ok((i, k)) => {
                n += line::line_length(i, k);
                at += k;
            }
            Err(_) => return n + 15,
        }
    }
    n + 9
}

pub fn write(code: &[u8], text: &mut [u8])
    requires { length (listing_of code.now) ≤ length text.old }
    ensures { text.new ≡ sets text.old 0 (listing_of code.now) }
{
    let mut n = 0;
    let mut at = 0;
    while at < code.len() {
        match decoded_at(code, at) {
            Ok((i, k)) => {
                let end = at + k;
                line::put_line(text, n, at, &code[at..end], i);
                n += line::line_length(i, k);
                at = end;
            }
            Err(r) => {
                lines::put_refused(text, n, at, r);
                return;
            }
        }
    }
    lines::put_end(text, n, at);
}
