// The comparison for C: two kernels as byte slices, the line of the answer in a lent buffer. docs/c-interface.md has it.
#![tactic(auto)]

ghost use Rattle.reedtassel_compare.specs.Compare.{Compares};

// The line without a line feed, and its length. Where the buffer is too short for it, -1, and nothing is written.
#[unsafe(no_mangle)]
pub extern "C" fn reedtassel_compare(first: &[u8], second: &[u8], line: &mut [u8]) -> i32
    ensures { Compares first.now second.now line.old result line.new }
{
    match compare::compare_line(first, second, line) {
        Some(n) => n as i32,
        None => -1,
    }
}
