// One step of the 32 threads.
#![tactic(auto)]

ghost use Rattle.std.specs.Prelude.{◌≡◌, ◌*◌, ◌≤◌, ◌<◌, ◌^◌, length};
ghost use Rattle.machine.specs.Step.{step_of};
ghost use Rattle.machine.specs.State.{threads_at, state_at};
ghost use Rattle.operations.specs.Action.{meaning_by};
ghost use Rattle.effect.specs.Tables.{tables_of};
ghost use Rattle.marks.specs.Settled.{QuietIf, KeptIf};
ghost use Rattle.plan.specs.Plan.{PlanOf};
ghost use Rattle.step.specs.Told.{told, told_by, taken_by, rows_left, Ready, QuietPlan};

use effect::{Rows, Tables};
use isa::answer::Refusal;
use jumps::Class;
use plan::{Plan, Task};

// What an accepted step comes to: the address to go on at, the mask and, for its record, the length of the instruction and the class.
#[derive(Clone, Copy)]
pub struct Outcome {
    pub address: usize,
    pub mask: u32,
    pub bytes: usize,
    pub class: Class,
}

// The task of an address, in code of some length.
fn take(
    task: &Task,
    address: usize,
    size: usize,
    quiet: bool,
    registers: &mut [u32],
    marks: &mut [u8],
    tables: Tables,
    mask: u32,
    rows: &mut Rows,
) -> Result<Outcome, Refusal>
    requires { Ready task.now × (address < 2 ^ 32) × (length marks.old ≡ 2 * length registers.old)
        × QuietIf quiet (meaning_by task.now.action) marks.old }
    ensures { (told result registers.new marks.new
        ≡ taken_by (meaning_by task.now.action) task.now.bytes size (tables_of tables.entry)
        (state_at (threads_at registers.old marks.old mask) address))
        × (rows.new ≡ rows_left result (Ok task.now) (tables_of tables.entry) registers.old rows.old)
        × KeptIf quiet marks.old marks.new }
{
    if registers.len() / 32 < usize::from(task.registers) {
        return Err(Refusal::NoRegister);
    }
    if tables.specials.len() / 32 < usize::from(task.specials) {
        return Err(Refusal::NoSpecial);
    }
    if marks::step(task.action, quiet, registers, marks, mask) {
        return Err(Refusal::Discarded);
    }
    let (next, class) = going::goes_to(task.action, size, task.bytes, address, mask)?;
    let after = effect::act(&task.action, registers, tables, mask, rows);
    Ok(Outcome {
        address: next,
        mask: after,
        bytes: task.bytes,
        class,
    })
}

// The step at the address of a plan. It is quiet where no mark is set and none will be.
pub fn step(
    plan: &Plan,
    quiet: bool,
    code: &[u8],
    registers: &mut [u32],
    marks: &mut [u8],
    tables: Tables,
    mask: u32,
    rows: &mut Rows,
) -> Result<Outcome, Refusal>
    requires { PlanOf code.now plan.now × (plan.now.address ≤ length code.now) × (length code.now < 2 ^ 32)
        × (length marks.old ≡ 2 * length registers.old) × QuietPlan quiet plan.now marks.old }
    ensures { (told result registers.new marks.new
        ≡ told_by (step_of code.now (tables_of tables.entry)
        (state_at (threads_at registers.old marks.old mask) plan.now.address))
        (threads_at registers.old marks.old mask))
        × (rows.new ≡ rows_left result plan.now.task (tables_of tables.entry) registers.old rows.old)
        × KeptIf quiet marks.old marks.new }
{
    // `plan.task?` would copy the task; by reference it needs `as_ref` and a `map_err`, which is no plainer.
    match &plan.task {
        Ok(task) => take(
            task,
            plan.address,
            code.len(),
            quiet,
            registers,
            marks,
            tables,
            mask,
            rows,
        ),
        Err(r) => Err(*r),
    }
}
