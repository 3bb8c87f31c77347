// The sources of all threads, a row of 32 values for each.
ghost use Rattle.std.specs.Prelude.{◌≡◌, ◌+◌, ◌*◌, ◌/◌, ◌≤◌, ◌<◌, length, get_or};
ghost use Rattle.machine.specs.Lanes.{tab};
ghost use Rattle.machine.specs.Words.{half_of, pair_of, word_at, source_value, source_size, source_reach};
ghost use Rattle.lanes.specs.Sources.{Row, RowOver, Bounded, Reached, half_at, pair_at, lent, gather_over};

use isa::operand::Source;
use machine::input::Input;
use std::array;

// ---- a row of what each thread has

fn words(file: &[u32], r: u8) -> [u64; 32]
    requires { 32 * (r + 1) ≤ length file.now }
    ensures { result ≡ tab 32 (word_at file.now r) }
{
    let base = 32 * usize::from(r);
    array::from_fn(|t| u64::from(file[base + t]))
}

fn halves(file: &[u32], h: u8) -> [u64; 32]
    requires { 32 * (h / 2 + 1) ≤ length file.now }
    ensures { result ≡ tab 32 (half_at file.now h) }
{
    let base = 32 * usize::from(h / 2);
    let place = lane::place(u16::from(h));
    array::from_fn(|t| lane::part(file[base + t], place))
}

fn pairs(file: &[u32], r: u8) -> [u64; 32]
    requires { 32 * (r + 2) ≤ length file.now }
    ensures { result ≡ tab 32 (pair_at file.now r) }
{
    let first = usize::from(r);
    array::from_fn(|t| lane::pair(file[32 * first + t], file[32 * (first + 1) + t]))
}

// ---- what all threads have alike

// A uniform that is not lent is 0.
fn uniform(uniforms: &[u32], i: usize) -> u32
    ensures { result ≡ get_or uniforms.now i 0 }
{
    uniforms.get(i).copied().unwrap_or(0)
}

fn uniform_half(uniforms: &[u32], h: u16) -> u64
    ensures { result ≡ half_of h (get_or uniforms.now (h / 2) 0) }
{
    lane::part(uniform(uniforms, usize::from(h / 2)), lane::place(h))
}

fn uniform_pair(uniforms: &[u32], r: u8) -> u64
    ensures { result ≡ pair_of (get_or uniforms.now r 0) (get_or uniforms.now (r + 1) 0) }
{
    let i = usize::from(r);
    lane::pair(uniform(uniforms, i), uniform(uniforms, i + 1))
}

// ---- a row for each source

// Each case puts its row in place itself: a row that is alike for all threads is then written once, and not made apart and copied.
fn source(registers: &[u32], uniforms: &[u32], s: Source, row: &mut [u64; 32])
    requires { 32 * source_reach s ≤ length registers.now }
    ensures { Row row.new (source_value registers.now uniforms.now s) (source_size s) }
{
    match s {
        Source::Half(h) => *row = halves(registers, h),
        Source::Register(r) => *row = words(registers, r),
        Source::Pair(r) => *row = pairs(registers, r),
        Source::UniformHalf(h) => *row = [uniform_half(uniforms, h); 32],
        Source::UniformRegister(r) => *row = [u64::from(uniform(uniforms, usize::from(r))); 32],
        Source::UniformPair(r) => *row = [uniform_pair(uniforms, r); 32],
        Source::Immediate(v) => *row = [u64::from(v); 32],
    }
}

// Where there is nothing to read, the row stays as it was: no operation looks at it.
fn input(registers: &[u32], uniforms: &[u32], specials: &[u32], x: Input, row: &mut [u64; 32])
    requires { Reached x registers.now specials.now }
    ensures { RowOver x (lent uniforms.now specials.now) registers.now row.old row.new }
{
    match x {
        Input::Nothing => {}
        Input::Operand(a) => source(registers, uniforms, a.source, row),
        Input::Special(k) => *row = words(specials, k),
    }
}

// All sources of all threads.
pub fn gather(
    registers: &[u32],
    uniforms: &[u32],
    specials: &[u32],
    a: Input,
    b: Input,
    c: Input,
    sources: &mut [[u64; 32]; 3],
)
    requires { (length sources.old ≡ 3) × Reached a registers.now specials.now
        × Reached b registers.now specials.now × Reached c registers.now specials.now }
    ensures { (sources.new
        ≡ gather_over (lent uniforms.now specials.now) registers.now a b c sources.old)
        × Bounded sources.new a b c }
{
    input(registers, uniforms, specials, a, &mut sources[0]);
    input(registers, uniforms, specials, b, &mut sources[1]);
    input(registers, uniforms, specials, c, &mut sources[2]);
}
