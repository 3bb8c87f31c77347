// What an accepted instruction does to registers and mask; what it does to the marks stands in crate marks. All sources of all threads are
// read before any thread is written.
#![tactic(auto)]

ghost use Rattle.std.specs.Prelude.{◌≡◌, ◌*◌, ◌≤◌, length};
ghost use Rattle.machine.specs.Words.{destination_reach};
ghost use Rattle.machine.specs.Step.{gather_of, own_r0l, write_all, registers_reach, specials_reach};
ghost use Rattle.operations.specs.Operation.{result_by};
ghost use Rattle.operations.specs.Action.{meaning_by, Fitting, FittingBy};
ghost use Rattle.lanes.specs.Sources.{Reached};
ghost use Rattle.effect.specs.Tables.{tables_of};
ghost use Rattle.effect.specs.Rows.{worked_on, rows_after};
ghost use Rattle.effect.specs.Acted.{Masked, Acted};

use isa::operand::{Destination, Hint, Source, Src};
use machine::input::Input;
use operations::action::{Action, Kind};

// The uniforms and the special registers, which are only read.
#[derive(Clone, Copy)]
pub struct Tables<'a> {
    pub uniforms: &'a [u32],
    pub specials: &'a [u32],
}

// The rows that a step works in: up to three sources of 32 values each, and the results. They are made once for many steps and lent to each.
#[derive(Drop)]
pub struct Rows {
    pub sources: [[u64; 32]; 3],
    pub values: [u64; 32],
}

// The registers stand beside the tables and not in them: they are written while the tables are only read.
fn write(action: &Action, registers: &mut [u32], tables: Tables, mask: u32, rows: &mut Rows)
    requires { let x = action.now in Fitting x.operation x.a x.b x.c × (32 * destination_reach x.d ≤ length registers.old)
        × Reached x.a registers.old tables.specials.now × Reached x.b registers.old tables.specials.now × Reached x.c registers.old tables.specials.now }
    ensures { let x = action.now in (registers.new
        ≡ write_all x.d (result_by x.operation) mask (gather_of (tables_of tables.entry) registers.old x.a x.b x.c) registers.old)
        × (rows.new ≡ worked_on x.operation (tables_of tables.entry) registers.old x.a x.b x.c rows.old) }
{
    lanes::sources::gather(
        registers,
        tables.uniforms,
        tables.specials,
        action.a,
        action.b,
        action.c,
        &mut rows.sources,
    );
    alu::results(action.operation, &rows.sources, &mut rows.values);
    lanes::results::store(registers, action.d, mask, &rows.values);
}

// r0l of all threads, active or not, and then the mask.
fn mask(action: &Action, registers: &mut [u32], tables: Tables, rows: &mut Rows) -> u32
    requires { let x = action.now in Fitting x.operation x.a x.b own_r0l × (32 ≤ length registers.old)
        × Reached x.a registers.old tables.specials.now × Reached x.b registers.old tables.specials.now }
    ensures { let x = action.now in Masked (result_by x.operation)
        (gather_of (tables_of tables.entry) registers.old x.a x.b own_r0l) registers.old registers.new result
        × (rows.new ≡ worked_on x.operation (tables_of tables.entry) registers.old x.a x.b own_r0l rows.old) }
{
    let own = Input::Operand(Src {
        source: Source::Half(0),
        hint: Hint::None,
    });
    lanes::sources::gather(
        registers,
        tables.uniforms,
        tables.specials,
        action.a,
        action.b,
        own,
        &mut rows.sources,
    );
    alu::results(action.operation, &rows.sources, &mut rows.values);
    lanes::results::store(registers, Destination::Half(0), 0xffffffff, &rows.values);
    lanes::results::zeros(&rows.values)
}

#[tactic(auto, unfolding(machine::specs::Step::threads_after))]
pub fn act(
    action: &Action,
    registers: &mut [u32],
    tables: Tables,
    before: u32,
    rows: &mut Rows,
) -> u32
    requires { FittingBy action.now × (32 * registers_reach (meaning_by action.now) ≤ length registers.old)
        × (32 * specials_reach (meaning_by action.now) ≤ length tables.specials.now) }
    ensures { Acted (meaning_by action.now) (tables_of tables.entry) registers.old before registers.new result
        × (rows.new ≡ rows_after action.now (tables_of tables.entry) registers.old rows.old) }
{
    match action.kind {
        Kind::Writes => {
            write(action, registers, tables, before, rows);
            before
        }
        Kind::Masks => mask(action, registers, tables, rows),
        Kind::JumpsIfAny | Kind::JumpsIfNone => before,
    }
}
