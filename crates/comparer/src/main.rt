// Compares the kernels in two named files: reads each, and writes the line of the comparison to standard output.
#![tactic(auto)]

ghost use Rattle.std.specs.Prelude.{◌≡◌, ◌++◌, OnOk, length, take};
ghost use Rattle.std.specs.Io.KnownBytes.{Appends};
ghost use Rattle.input.specs.Counts.{IsPrefixLen};
ghost use Rattle.isa.specs.Text.{ascii};
ghost use Rattle.comparison.specs.Compare.{compare_of};
ghost use Rattle.comparison.specs.AnswerLine.{line_of};

use std::fs::File;
use std::io;
use std::io::Write;
use std::rt::{Env, Files};

// The kernel in the file that argument i names. Where it can't be read, as many bytes as the buffer holds, which are too many; so it is
// with a name that is not UTF-8, by which no file can be opened.
fn read_file<R: Env + Files>(rt: &R, i: usize, code: &mut [u8]) -> usize
    ensures { IsPrefixLen result code.new }
{
    let mut name = [0u8; 4096];
    let Ok(length) = rt.arg(i, &mut name) else {
        return code.len();
    };
    let Ok(path) = str::from_utf8(&name[..length]) else {
        return code.len();
    };
    let Ok(mut file) = File::open(rt, path) else {
        return code.len();
    };
    input::read_all(&mut file, code)
}

// The text has room for every line and its line feed.
fn compare_whole(first: &[u8], second: &[u8], text: &mut [u8]) -> usize
    requires { 17 ≡ length text.old }
    ensures prefix_len { IsPrefixLen result text.new }
    ensures text_after { take result text.new ≡ line_of (compare_of first.now second.now) ++ ascii "\n" }
{
    let n = compare::compare_line(first, second, text).unwrap();
    text[n] = b'\n';
    n + 1
}

// Compares the codes and writes the line.
fn write_line<W: Write>(first: &[u8], second: &[u8], output: &mut W) -> io::Result<()>
    ensures { OnOk result (Appends (W.contents output.old) (W.contents output.new)
        (line_of (compare_of first.now second.now) ++ ascii "\n")) }
{
    let mut text = [0u8; 17];
    let k = compare_whole(first, second, &mut text);
    output.write_all(&text[..k])
}

// With one byte more than the most that are compared a kernel is too long. A line that can't be written ends the program as one that can.
fn main(rt: HostRuntime) {
    let mut first = [0u8; walk::LIMIT + 1];
    let n = read_file(&rt, 1, &mut first);
    let mut second = [0u8; walk::LIMIT + 1];
    let m = read_file(&rt, 2, &mut second);
    let _ = write_line(&first[..n], &second[..m], &mut rt.stdout());
}
