// Writes the kernel on standard input as Intel HEX: reads it whole, and writes its text to standard output. Refused, nothing is written
// there, and standard error says so.
#![tactic(auto)]

ghost use Rattle.std.specs.Prelude.{◌≡◌, ◌<◌, ◌≤◌, IfOk, MatchOption, length, take};
ghost use Rattle.input.specs.Counts.{IsPrefixLen};
ghost use Rattle.hexwriter.specs.Program.{Writes};
ghost use Rattle.hexfile.specs.Read.{limit};
ghost use Rattle.hexwrite.specs.Write.{hex_of};

use std::io;
use std::io::{Read, Write};

// The number of characters; none where the kernel is too long. The text has room for every other kernel's.
fn write_whole(code: &[u8], text: &mut [u8]) -> Option<usize>
    requires { 65536 ≡ length text.old }
    ensures { MatchOption result (limit < length code.now) (λ n. IsPrefixLen n text.new × (take n text.new ≡ hex_of code.now) × (length code.now ≤ limit)) }
{
    hexfile::write(code, text)
}

// Whether the text was written. With one byte more than the most that are taken, or after a read that failed, the kernel is too long.
fn write_file<R: Read, W: Write>(file: &mut R, output: &mut W) -> io::Result<bool>
    ensures { IfOk result (λ done. Writes (R.remaining file.old) (W.contents output.old) (W.contents output.new) done) }
{
    let mut code = [0u8; hexfile::LIMIT + 1];
    let n = input::read_all(file, &mut code);
    let mut text = [0u8; 65536];
    let Some(k) = write_whole(&code[..n], &mut text) else {
        return Ok(false);
    };
    output.write_all(&text[..k])?;
    Ok(true)
}

fn main(rt: HostRuntime) {
    match write_file(&mut rt.stdin(), &mut rt.stdout()) {
        Ok(true) => {}
        Ok(false) => {
            let _ = rt.stderr().write_all(b"refused 1\n");
        }
        Err(_) => {
            let _ = rt.stderr().write_all(b"unwritten\n");
        }
    }
}
