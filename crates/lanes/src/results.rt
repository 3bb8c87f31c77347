// The results of all threads: written to a destination, or made a mask. What is to be written is made apart, a row of 32 words, so
// that the compiler sees that what it reads is not what it writes.
ghost use Rattle.std.specs.Prelude.{◌≡◌, ◌+◌, ◌*◌, ◌/◌, ◌%◌, ◌≤◌, ◌<◌, length};
ghost use Rattle.isa.specs.declared.operand.Destination.{Destination};
ghost use Rattle.machine.specs.Lanes.{tab, each, pack};
ghost use Rattle.machine.specs.Words.{destination_reach};
ghost use Rattle.lanes.specs.Results.{column_of, merged_at, word_lane, store_all, zero_at};

use isa::operand::Destination;
use std::array;

// ---- rows of words to write

// The 32 bits of each value from the bit k on.
fn column(values: &[u64; 32], k: u32) -> [u32; 32]
    requires { k < 64 }
    ensures { result ≡ tab 32 (column_of values.now k) }
{
    array::from_fn(|t| lane::result_word(values[t], k))
}

// The words of half h's register, each with a value of the row for that half.
fn merged(registers: &[u32], h: u8, row: &[u32; 32]) -> [u32; 32]
    requires { 32 * (h / 2 + 1) ≤ length registers.now }
    ensures { result ≡ tab 32 (merged_at registers.now h row.now) }
{
    let base = 32 * usize::from(h / 2);
    let other = lane::other(u16::from(h));
    let place = lane::place(u16::from(h));
    array::from_fn(|t| lane::merge(registers[base + t], other, row[t], place))
}

// ---- writing

// The row becomes register r of the active threads.
// That the registers of the destination are lent is asked of each: a type of so many registers would be built for one call.
fn put(registers: &mut [u32], r: usize, mask: u32, row: &[u32; 32])
    requires { 32 * (r + 1) ≤ length registers.old }
    ensures { registers.new ≡ each 32 (word_lane row.now mask r) registers.old }
{
    let base = 32 * r;
    for t in 0..32 {
        let i = base + t;
        let old = registers[i];
        registers[i] = lane::choose(lane::active(mask, t), row[t], old);
    }
}

fn halves(registers: &mut [u32], h: u8, mask: u32, values: &[u64; 32])
    requires { 32 * (h / 2 + 1) ≤ length registers.old }
    ensures { registers.new ≡ store_all values.now mask (Destination.Half h) registers.old }
{
    let row = merged(registers, h, &column(values, 0));
    put(registers, usize::from(h / 2), mask, &row);
}

fn words(registers: &mut [u32], r: u8, mask: u32, values: &[u64; 32])
    requires { 32 * (r + 1) ≤ length registers.old }
    ensures { registers.new ≡ store_all values.now mask (Destination.Register r) registers.old }
{
    put(registers, usize::from(r), mask, &column(values, 0));
}

fn pairs(registers: &mut [u32], r: u8, mask: u32, values: &[u64; 32])
    requires { 32 * (r + 2) ≤ length registers.old }
    ensures { registers.new ≡ store_all values.now mask (Destination.Pair r) registers.old }
{
    let first = usize::from(r);
    put(registers, first, mask, &column(values, 0));
    put(registers, first + 1, mask, &column(values, 32));
}

// The results of the active threads, each modulo two to the destination's size. Inlined, so that a mask instruction, which writes r0l of all
// threads, has a loop for that alone.
#[inline(always)]
pub fn store(registers: &mut [u32], d: Destination, mask: u32, values: &[u64; 32])
    requires { 32 * destination_reach d ≤ length registers.old }
    ensures { registers.new ≡ store_all values.now mask d registers.old }
{
    match d {
        Destination::Half(h) => halves(registers, h, mask, values),
        Destination::Register(r) => words(registers, r, mask, values),
        Destination::Pair(r) => pairs(registers, r, mask, values),
    }
}

// The mask of the threads whose value is 0 modulo 65536.
pub fn zeros(values: &[u64; 32]) -> u32
    ensures { result ≡ pack 32 (zero_at values.now) }
{
    lane::mask(|t| values[t] % 65536 == 0)
}
