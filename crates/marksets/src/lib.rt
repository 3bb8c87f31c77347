// What a step makes of the marks: sources with discard mark their halves in all threads, and then each thread that writes clears what it
// writes.
#![tactic(auto)]

ghost use Rattle.std.specs.Prelude.{◌≡◌, ◌+◌, ◌*◌, ◌≤◌, length};
ghost use Rattle.machine.specs.Words.{destination_reach, source_reach, input_reach};
ghost use Rattle.machine.specs.Marks.{halves_from, destination_halves, source_halves, input_discards};
ghost use Rattle.marksets.specs.Sets.{halves_set, data_sets, mask_sets};

use isa::operand::{Destination, Hint, Source};
use machine::input::Input;
use markrows::ALL;

// ---- the marks of some halves become v, in some threads, a bit each

// Mostly all threads are meant. All marks are lent, and not the row alone: the clause is of them all.
fn half(marks: &mut [u8], h: usize, who: u32, v: u8)
    requires { 32 * (h + 1) ≤ length marks.old }
    ensures { marks.new ≡ halves_set (halves_from h 1) who v marks.old }
{
    if who == ALL {
        markrows::fill(marks, h, v);
    } else {
        markrows::set(marks, h, who, v);
    }
}

// Those of n halves, from h on.
// That the marks of the halves are lent is asked of each: a type of so many marks would be built for one call.
fn halves(marks: &mut [u8], h: usize, n: usize, who: u32, v: u8)
    requires { 32 * (h + n) ≤ length marks.old }
    ensures { marks.new ≡ halves_set (halves_from h n) who v marks.old }
{
    for i in h..h + n {
        half(marks, i, who, v);
    }
}

// ---- what a source marks, and what a destination clears

fn source(marks: &mut [u8], s: Source, who: u32)
    requires { 64 * source_reach s ≤ length marks.old }
    ensures { marks.new ≡ halves_set (source_halves s) who 1 marks.old }
{
    match s {
        Source::Half(h) => halves(marks, usize::from(h), 1, who, 1),
        Source::Register(r) => halves(marks, 2 * usize::from(r), 2, who, 1),
        Source::Pair(r) => halves(marks, 2 * usize::from(r), 4, who, 1),
        Source::UniformHalf(_)
        | Source::UniformRegister(_)
        | Source::UniformPair(_)
        | Source::Immediate(_) => {}
    }
}

fn discard(marks: &mut [u8], x: Input, who: u32)
    requires { 64 * input_reach x ≤ length marks.old }
    ensures { marks.new ≡ halves_set (input_discards x) who 1 marks.old }
{
    if let Input::Operand(a) = x
        && let Hint::Discard = a.hint
    {
        source(marks, a.source, who);
    }
}

// A match of its own: to make a `Source` of a `Destination`, for `source` to do both, is the same match.
fn destination(marks: &mut [u8], d: Destination, who: u32)
    requires { 64 * destination_reach d ≤ length marks.old }
    ensures { marks.new ≡ halves_set (destination_halves d) who 0 marks.old }
{
    match d {
        Destination::Half(h) => halves(marks, usize::from(h), 1, who, 0),
        Destination::Register(r) => halves(marks, 2 * usize::from(r), 2, who, 0),
        Destination::Pair(r) => halves(marks, 2 * usize::from(r), 4, who, 0),
    }
}

// ---- instructions

// A data instruction: active threads write.
pub fn data(marks: &mut [u8], d: Destination, a: Input, b: Input, c: Input, mask: u32)
    requires { (64 * destination_reach d ≤ length marks.old) × (64 * input_reach a ≤ length marks.old)
        × (64 * input_reach b ≤ length marks.old) × (64 * input_reach c ≤ length marks.old) }
    ensures { marks.new ≡ data_sets d a b c mask marks.old }
{
    discard(marks, a, ALL);
    discard(marks, b, ALL);
    discard(marks, c, ALL);
    destination(marks, d, mask);
}

// A mask instruction: every thread writes r0l, half 0.
pub fn masked(marks: &mut [u8], a: Input, b: Input)
    requires { (32 ≤ length marks.old) × (64 * input_reach a ≤ length marks.old) × (64 * input_reach b ≤ length marks.old) }
    ensures { marks.new ≡ mask_sets a b marks.old }
{
    discard(marks, a, ALL);
    discard(marks, b, ALL);
    half(marks, 0, ALL, 0);
}
