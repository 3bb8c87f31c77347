// A walk through a kernel: what stands at an address of its code.
#![tactic(auto)]

ghost use Rattle.std.specs.Prelude.{◌≡◌, ◌≤◌, length};
ghost use Rattle.walk.specs.Walk.{stands_at};

use isa::answer::Refusal;
use isa::instruction::Instruction;

// The most bytes that a walk takes.
pub const LIMIT: usize = 8192;

pub fn decoded_at(code: &[u8], at: usize) -> Result<(Instruction, usize), Refusal>
    requires { at ≤ length code.now }
    ensures { result ≡ stands_at code.now at }
{
    if LIMIT < code.len() {
        return Err(Refusal::BadSize);
    }
    decode::decode(&code[at..])
}
