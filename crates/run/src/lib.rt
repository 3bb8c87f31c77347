// A run: the 32 threads step in lockstep until the code is at its end, the budget is used up, or an instruction is refused.
#![tactic(auto)]

ghost use Rattle.std.specs.Prelude.{◌≡◌, true};
ghost use Rattle.machine.specs.Run.{arranged};
ghost use Rattle.run.specs.Ran.{Ran, call_of};

use effect::{Rows, Tables};
use isa::answer::Refusal;
use machine::answer::{Answer, Ending};
use sizes::Sizes;
use slots::SLOTS;

// A run whose sizes are as they have to be. The cache holds plans, each in the slot of its address; where the slot has the plan of another
// address, that of this one takes its place. The run is quiet as long as no mark is set.
fn run_arranged(
    code: &[u8],
    registers: &mut [u32],
    marks: &mut [u8],
    uniforms: &[u32],
    specials: &[u32],
    start: usize,
    mask: u32,
    budget: usize,
    records: &mut [u8],
) -> Answer
    requires { arranged (call_of code.now registers.old marks.old uniforms.now specials.now start mask budget records.old) ≡ true }
    ensures { Ran (call_of code.now registers.old marks.old uniforms.now specials.now start mask budget records.old)
        result registers.new marks.new records.new }
{
    let tables = Tables { uniforms, specials };
    let mut rows = Rows {
        sources: [[0; 32]; 3],
        values: [0; 32],
    };
    let mut cache = [plan::past_end(code); SLOTS];
    let mut quiet = markrows::clear(marks);
    let mut address = start;
    let mut active = mask;
    let mut steps = 0;
    // A `while`: the next address is what the step answers.
    while address != code.len() {
        if steps == budget {
            return Answer {
                ending: Ending::Spent,
                steps,
                address,
                mask: active,
            };
        }
        let k = slots::slot_of(address);
        if !slots::is_of(cache[k].address, address) {
            cache[k] = plan::at(code, address);
        }
        let plan = &cache[k];
        quiet = marks::stays_quiet(quiet, plan.discards());
        match step::step(
            plan, quiet, code, registers, marks, tables, active, &mut rows,
        ) {
            Ok(next) => {
                let class = next.class.number();
                let record = records::record(address, next.bytes, class, active, next.mask);
                bits::piece::put(records, 16 * steps, &record);
                address = next.address;
                active = next.mask;
                steps += 1;
            }
            Err(r) => {
                return Answer {
                    ending: Ending::Refused(r),
                    steps,
                    address,
                    mask: active,
                };
            }
        }
    }
    Answer {
        ending: Ending::Finished,
        steps,
        address,
        mask: active,
    }
}

// Lengths, budget and start are looked at before anything is written. Uniforms and special registers are only read. A run that starts at
// the end of the code makes no step, and needs no cache.
pub fn run(
    code: &[u8],
    registers: &mut [u32],
    marks: &mut [u8],
    uniforms: &[u32],
    specials: &[u32],
    start: usize,
    mask: u32,
    budget: usize,
    records: &mut [u8],
) -> Answer
    ensures { Ran (call_of code.now registers.old marks.old uniforms.now specials.now start mask budget records.old)
        result registers.new marks.new records.new }
{
    let sizes = Sizes {
        code: code.len(),
        registers: registers.len(),
        marks: marks.len(),
        uniforms: uniforms.len(),
        specials: specials.len(),
        start,
        budget,
        records: records.len(),
    };
    if !sizes.arranged() {
        return Answer {
            ending: Ending::Refused(Refusal::BadSize),
            steps: 0,
            address: start,
            mask,
        };
    }
    if start == code.len() {
        return Answer {
            ending: Ending::Finished,
            steps: 0,
            address: start,
            mask,
        };
    }
    run_arranged(
        code, registers, marks, uniforms, specials, start, mask, budget, records,
    )
}
