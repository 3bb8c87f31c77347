// Whether a step reads a half that is marked.
#![tactic(auto)]

ghost use Rattle.std.specs.Prelude.{◌≡◌, ◌+◌, ◌*◌, ◌≤◌, length};
ghost use Rattle.machine.specs.Words.{source_reach, input_reach};
ghost use Rattle.machine.specs.Marks.{halves_from, source_halves, input_halves};
ghost use Rattle.operations.specs.Operation.{compares_by};
ghost use Rattle.markreads.specs.Marked.{halves_marked, data_reads, comparing, compared_reads, mask_reads};

use isa::operand::Source;
use machine::input::Input;
use markrows::ALL;
use operations::Operation;

// ---- whether any of some threads, a bit each, has a half marked

// Any of n halves, from h on. Where they are clear in all threads, as they mostly are, no thread's bit is looked at.
fn halves(marks: &[u8], h: usize, n: usize, who: u32) -> bool
    requires { 32 * (h + n) ≤ length marks.now }
    ensures { result ≡ halves_marked marks.now who (halves_from h n) }
{
    if !markrows::any(marks, h, n) {
        return false;
    }
    for i in h..h + n {
        if markrows::marked_by(marks, i, who) {
            return true;
        }
    }
    false
}

// The arms of marksets::source, which sets and asks nothing: a range of halves for both would be empty for uniforms and immediates.
fn source(marks: &[u8], s: Source, who: u32) -> bool
    requires { 64 * source_reach s ≤ length marks.now }
    ensures { result ≡ halves_marked marks.now who (source_halves s) }
{
    match s {
        Source::Half(h) => halves(marks, usize::from(h), 1, who),
        Source::Register(r) => halves(marks, 2 * usize::from(r), 2, who),
        Source::Pair(r) => halves(marks, 2 * usize::from(r), 4, who),
        Source::UniformHalf(_)
        | Source::UniformRegister(_)
        | Source::UniformPair(_)
        | Source::Immediate(_) => false,
    }
}

fn input(marks: &[u8], x: Input, who: u32) -> bool
    requires { 64 * input_reach x ≤ length marks.now }
    ensures { result ≡ halves_marked marks.now who (input_halves x) }
{
    match x {
        Input::Operand(a) => source(marks, a.source, who),
        Input::Nothing | Input::Special(_) => false,
    }
}

// ---- data instructions: by active threads

// That the marks of the operands are lent is asked of each: a type of so many marks would be built for one call.
pub fn data(marks: &[u8], a: Input, b: Input, c: Input, mask: u32) -> bool
    requires { (64 * input_reach a ≤ length marks.now) × (64 * input_reach b ≤ length marks.now) × (64 * input_reach c ≤ length marks.now) }
    ensures { result ≡ data_reads marks.now a b c mask }
{
    input(marks, a, mask) || input(marks, b, mask) || input(marks, c, mask)
}

// ---- mask instructions: r0l by all threads, A and B by those that compare

// Whether a thread with this r0l compares.
fn compares(operation: Operation, v: u32) -> bool
    ensures { result ≡ compares_by operation v }
{
    match operation {
        Operation::IfIcmp(_) => v == 0,
        Operation::WhileIcmp(o) => v < u32::from(o.n),
        Operation::ElseIcmp(_) => v == 1,
        _ => false,
    }
}

// The threads that compare, a bit each.
fn comparing(operation: Operation, registers: &[u32]) -> u32
    requires { 32 ≤ length registers.now }
    ensures { result ≡ comparing (compares_by operation) registers.now }
{
    lane::mask(|t| compares(operation, registers[t] % 65536))
}

// Which threads compare is found out only where A or B is marked in some thread.
fn compared(marks: &[u8], operation: Operation, a: Input, b: Input, registers: &[u32]) -> bool
    requires { (32 ≤ length registers.now) × (64 * input_reach a ≤ length marks.now) × (64 * input_reach b ≤ length marks.now) }
    ensures { result ≡ compared_reads marks.now (compares_by operation) a b registers.now }
{
    if !input(marks, a, ALL) && !input(marks, b, ALL) {
        return false;
    }
    let who = comparing(operation, registers);
    input(marks, a, who) || input(marks, b, who)
}

pub fn masked(marks: &[u8], operation: Operation, a: Input, b: Input, registers: &[u32]) -> bool
    requires { (32 ≤ length registers.now) × (32 ≤ length marks.now) × (64 * input_reach a ≤ length marks.now) × (64 * input_reach b ≤ length marks.now) }
    ensures { result ≡ mask_reads marks.now (compares_by operation) a b registers.now }
{
    halves(marks, 0, 1, ALL) || compared(marks, operation, a, b, registers)
}
