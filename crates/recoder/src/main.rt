// Decodes the kernel on standard input, encodes it again, and lists what it got: reads it whole, and writes the listing to standard
// output.
#![tactic(auto)]

ghost use Rattle.std.specs.Prelude.{◌≡◌, ◌≤◌, OnOk, length, take};
ghost use Rattle.input.specs.Counts.{IsPrefixLen};
ghost use Rattle.listing.specs.Listing.{listing_of};
ghost use Rattle.recode.specs.Recode.{recoded_of};
ghost use Rattle.recoder.specs.Program.{ListsAgain};

use std::io;
use std::io::{Read, Write};

// The buffer has room for the code, and the text for every listing. It is that of the code too, which encoding gives back.
fn list_again(code: &[u8], out: &mut [u8], text: &mut [u8]) -> usize
    requires { (length code.now ≤ length out.old) × (65536 ≡ length text.old) }
    ensures prefix_len { IsPrefixLen result text.new }
    ensures text_after { take result text.new ≡ listing_of (recoded_of code.now) }
    ensures unchanged { take result text.new ≡ listing_of code.now }
{
    let n = recode::recode(code, out).unwrap();
    listing::list(&out[..n], text).unwrap()
}

// With one byte more than the most that are listed, or after a read that failed, the listing is that of a kernel too long.
fn list_file<R: Read, W: Write>(file: &mut R, output: &mut W) -> io::Result<()>
    ensures { OnOk result (ListsAgain (R.remaining file.old) (W.contents output.old) (W.contents output.new)) }
{
    let mut code = [0u8; walk::LIMIT + 1];
    let n = input::read_all(file, &mut code);
    let mut out = [0u8; walk::LIMIT + 1];
    let mut text = [0u8; 65536];
    let k = list_again(&code[..n], &mut out, &mut text);
    output.write_all(&text[..k])
}

// A listing that can't be written ends the program as one that can.
fn main(rt: HostRuntime) {
    let _ = list_file(&mut rt.stdin(), &mut rt.stdout());
}
