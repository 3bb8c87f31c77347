// Reads Intel HEX on standard input: reads the text whole, and writes its kernel to standard output. Refused, nothing is written there, and
// standard error says why, and in which row.
#![tactic(auto)]

ghost use Rattle.std.specs.Prelude.{◌≡◌, ◌++◌, IfOk};
ghost use Rattle.isa.specs.Text.{ascii};
ghost use Rattle.hexreader.specs.Digits.{last_digits};
ghost use Rattle.hexreader.specs.Program.{Reads};
ghost use Rattle.hexrow.specs.Row.{fault_number};

use hexfile::ReadError;
use hexrow::Fault;
use std::io;
use std::io::{Read, Write};

// The most characters of a text that is taken. A kernel of 8,192 bytes has 122,893 in rows of one byte with carriage returns.
const LIMIT: usize = 131072;

// What is said of a bad row before its number: whole texts, since the numbers have two digits each.
fn words(f: Fault) -> [u8; 15]
    ensures { result ≡ ascii "refused " ++ last_digits 10 2 (fault_number f) ++ ascii " row " }
{
    match f {
        Fault::Form => *b"refused 12 row ",
        Fault::Sum => *b"refused 13 row ",
        Fault::Order => *b"refused 14 row ",
    }
}

// What is answered to the text; its kernel is written. A text with one character more than the most that are taken, or after a read that
// failed, is too long.
fn read_file<R: Read, W: Write>(
    file: &mut R,
    output: &mut W,
) -> io::Result<Result<usize, ReadError>>
    ensures { IfOk result (λ answer. Reads (R.remaining file.old) (W.contents output.old) (W.contents output.new) answer) }
{
    let mut text = [0u8; LIMIT + 1];
    let n = input::read_all(file, &mut text);
    let mut code = [0u8; hexfile::LIMIT];
    if LIMIT < n {
        return Ok(Err(ReadError::BadSize));
    }
    let read = hexfile::read(&text[..n], &mut code);
    if let Ok(k) = read {
        output.write_all(&code[..k])?;
    }
    Ok(read)
}

fn main(rt: HostRuntime) {
    match read_file(&mut rt.stdin(), &mut rt.stdout()) {
        Ok(Ok(_)) => {}
        Ok(Err(ReadError::BadRow(row, f))) => {
            let _ = rt.stderr().write_all(&words(f));
            let _ = rt.eprintln(row);
        }
        Ok(Err(ReadError::BadSize)) => {
            let _ = rt.stderr().write_all(b"refused 1\n");
        }
        Err(_) => {
            let _ = rt.stderr().write_all(b"unwritten\n");
        }
    }
}
