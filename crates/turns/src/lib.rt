// What two places say, one of each kernel, at one address: both walks go on, or the answer.
#![tactic(auto)]

ghost use Rattle.std.specs.Prelude.{◌≡◌};
ghost use Rattle.turns.specs.Turn.{beginning, standing_of, turn_by, turn_between};

use comparison::{Comparison, Field, Kernel};
use isa::answer::Refusal;
use isa::parts::Parts;
use std::ops::ControlFlow;
use walk::LIMIT;

// What stands at a place of a code: an instruction, by its parts, with its length; nothing, at the end; or the refusal.
pub type Here = Result<Option<(Parts, usize)>, Refusal>;

// The same, without which instruction it is.
pub type Standing = Result<Option<()>, Refusal>;

// Kernels of these lengths: one that is too long is refused before the walks, the first if both are.
pub fn begin(first: usize, second: usize) -> ControlFlow<Comparison>
    ensures { result ≡ beginning first second }
{
    if LIMIT < first {
        return ControlFlow::Break(Comparison::Refused(0, Refusal::BadSize, Kernel::First));
    }
    if LIMIT < second {
        return ControlFlow::Break(Comparison::Refused(0, Refusal::BadSize, Kernel::Second));
    }
    ControlFlow::Continue(())
}

fn standing(here: Here) -> Standing
    ensures { result ≡ standing_of here }
{
    Ok(here?.map(|_| ()))
}

// By how many bytes both go on, or the answer. A refusal is the answer, the first kernel's before the second's, even if the other
// kernel has ended. `difference` is that of two instructions, of which the first has n bytes, where two stand there.
pub fn decide_by(
    one: Standing,
    two: Standing,
    difference: Option<Field>,
    n: usize,
    address: usize,
) -> ControlFlow<Comparison, usize>
    ensures { result ≡ turn_by one two difference n address }
{
    match (one, two) {
        (Err(r), _) => ControlFlow::Break(Comparison::Refused(address, r, Kernel::First)),
        (_, Err(r)) => ControlFlow::Break(Comparison::Refused(address, r, Kernel::Second)),
        (Ok(None), Ok(None)) => ControlFlow::Break(Comparison::Same),
        (Ok(None), Ok(Some(_))) => ControlFlow::Break(Comparison::Ended(address, Kernel::First)),
        (Ok(Some(_)), Ok(None)) => ControlFlow::Break(Comparison::Ended(address, Kernel::Second)),
        (Ok(Some(_)), Ok(Some(_))) => match difference {
            Some(field) => ControlFlow::Break(Comparison::Differs(address, field)),
            None => ControlFlow::Continue(n),
        },
    }
}

// The same, by the instructions themselves.
pub fn decide(one: Here, two: Here, address: usize) -> ControlFlow<Comparison, usize>
    ensures { result ≡ turn_between one two address }
{
    let (difference, n) = match (one, two) {
        (Ok(Some((p, n))), Ok(Some((q, m)))) => (difference::first(p, n, q, m), n),
        _ => (None, 0),
    };
    decide_by(standing(one), standing(two), difference, n, address)
}
