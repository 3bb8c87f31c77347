// Lists the kernel on standard input: reads it whole, and writes its listing to standard output.
#![tactic(auto)]

ghost use Rattle.std.specs.Prelude.{◌≡◌, OnOk, length, take};
ghost use Rattle.input.specs.Counts.{IsPrefixLen};
ghost use Rattle.listing.specs.Listing.{listing_of};
ghost use Rattle.lister.specs.Program.{Lists};

use std::io;
use std::io::{Read, Write};

// The text has room for every listing.
fn list_whole(code: &[u8], text: &mut [u8]) -> usize
    requires { 65536 ≡ length text.old }
    ensures prefix_len { IsPrefixLen result text.new }
    ensures text_after { take result text.new ≡ listing_of code.now }
{
    listing::list(code, text).unwrap()
}

// With one byte more than the most that are listed, or after a read that failed, the listing is that of a kernel too long.
fn list_file<R: Read, W: Write>(file: &mut R, output: &mut W) -> io::Result<()>
    ensures { OnOk result (Lists (R.remaining file.old) (W.contents output.old) (W.contents output.new)) }
{
    let mut code = [0u8; walk::LIMIT + 1];
    let n = input::read_all(file, &mut code);
    let mut text = [0u8; 65536];
    let k = list_whole(&code[..n], &mut text);
    output.write_all(&text[..k])
}

// A listing that can't be written ends the program as one that can.
fn main(rt: HostRuntime) {
    let _ = list_file(&mut rt.stdin(), &mut rt.stdout());
}
