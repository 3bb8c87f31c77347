// Actions put together from operands.
ghost use Rattle.std.specs.Prelude.{◌≡◌};
ghost use Rattle.machine.specs.Words.{destination_size};
ghost use Rattle.machine.specs.Meaning.{none, input, size};
ghost use Rattle.machine.specs.declared.input.Input.{Input as SpecsInput};
ghost use Rattle.action.specs.Acts.{writes_by, masks_by, jumps_by, sum_for, product_for, test_for};
ghost use Rattle.operations.specs.declared.Operation.{Operation};

use isa::instruction::Compare;
use isa::operand::{Binary, Compared, Destination, Dst, Source, Src, Ternary, Unary};
use machine::input::Input;
use operations::action::{Action, Kind};
use operations::{Operation, Sum, Test};

pub fn source_size(s: Src) -> u8
    ensures { result ≡ size s }
{
    match s.source {
        Source::Half(_) | Source::UniformHalf(_) | Source::Immediate(_) => 16,
        Source::Register(_) | Source::UniformRegister(_) => 32,
        Source::Pair(_) | Source::UniformPair(_) => 64,
    }
}

fn destination_size(d: Dst) -> u8
    ensures { result ≡ destination_size d.destination }
{
    match d.destination {
        Destination::Half(_) => 16,
        Destination::Register(_) => 32,
        Destination::Pair(_) => 64,
    }
}

// A data instruction.
fn writes(d: Dst, a: Input, b: Input, c: Input, operation: Operation) -> Action
    ensures { result ≡ writes_by d a b c operation }
{
    Action {
        kind: Kind::Writes,
        d: d.destination,
        a,
        b,
        c,
        operation,
        off: 0,
    }
}

// A mask instruction.
fn masks(a: Input, b: Input, operation: Operation) -> Action
    ensures { result ≡ masks_by a b operation }
{
    Action {
        kind: Kind::Masks,
        d: Destination::Half(0),
        a,
        b,
        c: Input::Nothing,
        operation,
        off: 0,
    }
}

pub fn jumps(kind: Kind, off: u32) -> Action
    ensures { result ≡ jumps_by kind off }
{
    Action {
        kind,
        d: Destination::Half(0),
        a: Input::Nothing,
        b: Input::Nothing,
        c: Input::Nothing,
        operation: Operation::Mov(0),
        off,
    }
}

// ---- one for each number of sources

pub fn without_source(d: Dst, operation: Operation) -> Action
    ensures { result ≡ writes_by d none none none operation }
{
    writes(d, Input::Nothing, Input::Nothing, Input::Nothing, operation)
}

pub fn special(d: Dst, sr: u8) -> Action
    ensures { result ≡ writes_by d (SpecsInput.Special sr) none none Operation.GetSr }
{
    let sr = Input::Special(sr);
    writes(d, sr, Input::Nothing, Input::Nothing, Operation::GetSr)
}

pub fn unary(o: Unary, operation: Operation) -> Action
    ensures { result ≡ writes_by o.d (input o.a) none none operation }
{
    let a = Input::Operand(o.a);
    writes(o.d, a, Input::Nothing, Input::Nothing, operation)
}

pub fn binary(o: Binary, operation: Operation) -> Action
    ensures { result ≡ writes_by o.d (input o.a) (input o.b) none operation }
{
    let a = Input::Operand(o.a);
    let b = Input::Operand(o.b);
    writes(o.d, a, b, Input::Nothing, operation)
}

pub fn ternary(o: Ternary, operation: Operation) -> Action
    ensures { result ≡ writes_by o.d (input o.a) (input o.b) (input o.c) operation }
{
    let a = Input::Operand(o.a);
    let b = Input::Operand(o.b);
    let c = Input::Operand(o.c);
    writes(o.d, a, b, c, operation)
}

pub fn compares(o: Compared, operation: Operation) -> Action
    ensures { result ≡ masks_by (input o.a) (input o.b) operation }
{
    masks(Input::Operand(o.a), Input::Operand(o.b), operation)
}

pub fn pops(n: u8) -> Action
    ensures { result ≡ masks_by none none (Operation.PopExec n) }
{
    masks(Input::Nothing, Input::Nothing, Operation::PopExec(n))
}

// ---- what operations hold beside the flags: the bit sizes of the operands

// Of iadd, which has no C, with no flag set.
pub fn plain_sum(o: Binary) -> Sum
    ensures { result ≡ sum_for o 0 0 0 0 0 }
{
    Sum {
        saturate: 0,
        negate: 0,
        asigned: 0,
        bsigned: 0,
        csigned: 0,
        shift: 0,
        asize: source_size(o.a),
        bsize: source_size(o.b),
        csize: 0,
        dsize: destination_size(o.d),
    }
}

// Of imadd, with no flag set. One function for both is no plainer: their operands are of two types, and differ in C.
pub fn plain_product(o: Ternary) -> Sum
    ensures { result ≡ product_for o 0 0 0 0 0 0 }
{
    Sum {
        saturate: 0,
        negate: 0,
        asigned: 0,
        bsigned: 0,
        csigned: 0,
        shift: 0,
        asize: source_size(o.a),
        bsize: source_size(o.b),
        csize: source_size(o.c),
        dsize: destination_size(o.d),
    }
}

pub fn test(o: Compare) -> Test
    ensures { result ≡ test_for o }
{
    Test {
        cc: o.cc,
        ccn: o.ccn,
        asize: source_size(o.operands.a),
        bsize: source_size(o.operands.b),
        n: o.n,
    }
}
