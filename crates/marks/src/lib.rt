// The marks of a step: whether it is refused since it reads a half that is marked, and what it makes of the marks otherwise.
#![tactic(auto)]

ghost use Rattle.std.specs.Prelude.{◌≡◌, not, ◌*◌, ◌≤◌, length};
ghost use Rattle.machine.specs.Words.{destination_reach, input_reach};
ghost use Rattle.machine.specs.Step.{registers_reach};
ghost use Rattle.operations.specs.Operation.{compares_by};
ghost use Rattle.operations.specs.Action.{meaning_by};
ghost use Rattle.markreads.specs.Marked.{data_reads, mask_reads};
ghost use Rattle.marksets.specs.Sets.{data_sets, mask_sets};
ghost use Rattle.machine.specs.Meaning.{both};
ghost use Rattle.marks.specs.Settled.{Settled, Looked, QuietIf, KeptIf};

use isa::operand::Destination;
use machine::input::Input;
use operations::Operation;
use operations::action::{Action, Kind};

fn data(d: Destination, a: Input, b: Input, c: Input, marks: &mut [u8], mask: u32) -> bool
    requires { (64 * destination_reach d ≤ length marks.old) × (64 * input_reach a ≤ length marks.old)
        × (64 * input_reach b ≤ length marks.old) × (64 * input_reach c ≤ length marks.old) }
    ensures { Looked result (data_reads marks.old a b c mask) marks.new marks.old (data_sets d a b c mask marks.old) }
{
    let refused = markreads::data(marks, a, b, c, mask);
    if !refused {
        marksets::data(marks, d, a, b, c, mask);
    }
    refused
}

fn masked(operation: Operation, a: Input, b: Input, registers: &[u32], marks: &mut [u8]) -> bool
    requires { (32 ≤ length registers.now) × (32 ≤ length marks.old) × (64 * input_reach a ≤ length marks.old) × (64 * input_reach b ≤ length marks.old) }
    ensures { Looked result (mask_reads marks.old (compares_by operation) a b registers.now)
        marks.new marks.old (mask_sets a b marks.old) }
{
    let refused = markreads::masked(marks, operation, a, b, registers);
    if !refused {
        marksets::masked(marks, a, b);
    }
    refused
}

// Where no mark was set and the instruction does not discard, none is set now, and none will be.
pub fn stays_quiet(quiet: bool, discards: bool) -> bool
    ensures { result ≡ both quiet (not discards) }
{
    quiet && !discards
}

// Refused, the marks stay as they were. A quiet step, where no mark is set and none will be, looks at none.
pub fn step(action: Action, quiet: bool, registers: &[u32], marks: &mut [u8], mask: u32) -> bool
    requires { (32 * registers_reach (meaning_by action) ≤ length registers.now) × (length marks.old ≡ 2 * length registers.now)
        × QuietIf quiet (meaning_by action) marks.old }
    ensures { Settled (meaning_by action) registers.now mask result marks.old marks.new
        × KeptIf quiet marks.old marks.new }
{
    if quiet {
        return false;
    }
    match action.kind {
        Kind::Writes => data(action.d, action.a, action.b, action.c, marks, mask),
        Kind::Masks => masked(action.operation, action.a, action.b, registers, marks),
        Kind::JumpsIfAny | Kind::JumpsIfNone => false,
    }
}
