// The plan of the code at an address: all that a step needs to know of its instruction, so that it is found out once and kept.
#![tactic(auto)]

ghost use Rattle.std.specs.Prelude.{◌≡◌, ◌≤◌, length, drop};
ghost use Rattle.isa.specs.Decode.{decode_of};
ghost use Rattle.isa.specs.Refusal.{refusal};
ghost use Rattle.plan.specs.Plan.{Says, Planned, task_with, refused_with, discards_by};

use finding::matching;
use isa::answer::Refusal;
use operations::action::Action;

// What a step has to do: the length of its instruction, how many registers and special registers there have to be for it, whether it
// discards, and its action.
#[derive(Clone, Copy)]
pub struct Task {
    pub bytes: usize,
    pub registers: u16,
    pub specials: u16,
    pub discards: bool,
    pub action: Action,
}

// The task at an address, or why there is none.
#[derive(Clone, Copy)]
pub struct Plan {
    pub address: usize,
    pub task: Result<Task, Refusal>,
}

impl Plan {
    // A step that is refused discards nothing.
    pub fn discards(&self) -> bool
        ensures { result ≡ discards_by self.now.task }
    {
        match &self.task {
            Ok(task) => task.discards,
            Err(_) => false,
        }
    }
}

fn task_of(action: Action, bytes: usize) -> Task
    ensures { result ≡ task_with action bytes }
{
    Task {
        bytes,
        registers: going::registers_reach(action),
        specials: going::specials_reach(action),
        discards: going::discards(action),
        action,
    }
}

// The task of the instruction at the start of some bytes. They are found and read here, and not by decode: an instruction that need not be
// put into an answer is copied once less.
fn first_task(code: &[u8]) -> Result<Task, Refusal>
    ensures { Says (decode_of code.now) result }
{
    let w = bits::word(code);
    let (place, bytes) = matching::find_first(w, finding::held(code.len()))?;
    let i = reading::read(place, w & finding::ones_of(bytes)).ok_or(Refusal::NoMeaning)?;
    Ok(task_of(action::action_of(i), bytes))
}

pub fn at(code: &[u8], address: usize) -> Plan
    requires { address ≤ length code.now }
    ensures { Planned (decode_of (drop address code.now)) address result }
{
    Plan {
        address,
        task: first_task(&code[address..]),
    }
}

// The plan of the end of the code, where nothing is lent to decode.
pub fn past_end(code: &[u8]) -> Plan
    ensures { result ≡ refused_with (refusal 2) (length code.now) }
{
    Plan {
        address: code.len(),
        task: Err(Refusal::CutShort),
    }
}
