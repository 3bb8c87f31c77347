// What an operation computes for each of the 32 threads, modulo 2^64, from the gathered values of its sources.
#![tactic(auto)]

mod rows;

ghost use Rattle.std.specs.Prelude.{◌≡◌, length};
ghost use Rattle.machine.specs.Integer.{modulo};
ghost use Rattle.machine.specs.Lanes.{tab};
ghost use Rattle.operations.specs.Operation.{result_by, SizedBy, ValuesWithin, RowsWithin};
ghost use Rattle.alu.specs.Results.{result_at};

use crate::rows::each;
use operations::Operation;

// For one thread.
pub fn result(operation: Operation, a: u64, b: u64, c: u64) -> u64
    requires { SizedBy operation × ValuesWithin operation a b c }
    ensures { result ≡ modulo (result_by operation a b c) 64 }
{
    match operation {
        Operation::Mov(imm) => u64::from(imm),
        Operation::GetSr => a,
        Operation::Iadd(o) => sums::iadd(o, a, b),
        Operation::Imadd(o) => sums::imadd(o, a, b, c),
        Operation::Bfi(m) => fields::bfi(m, a, b, c),
        Operation::Bfeil(m) => fields::bfeil(m, a, b, c),
        Operation::Extr(m) => fields::extr(m, a, b, c),
        Operation::Shlhi(m) => fields::shlhi(m, a, b, c),
        Operation::Shrhi(m) => fields::shrhi(m, a, b, c),
        Operation::Asr(size) => signs::asr(size, a, b),
        Operation::Asrh(size) => signs::asrh(size, a, b),
        Operation::Bitop(o) => bitwise::bitop(o, a, b),
        Operation::Bitrev => bitwise::bitrev(a),
        Operation::Popcount => bitwise::popcount(a),
        Operation::Ffs => bitwise::ffs(a),
        Operation::PopExec(n) => nesting::pop_exec(n, c),
        Operation::IfIcmp(o) => nesting::if_icmp(o, a, b, c),
        Operation::WhileIcmp(o) => nesting::while_icmp(o, a, b, c),
        Operation::ElseIcmp(o) => nesting::else_icmp(o, a, b, c),
    }
}

// For all threads. Inlined, so that the operation is taken where it stands, and not copied for the call.
#[inline(always)]
pub fn results(operation: Operation, sources: &[[u64; 32]; 3], out: &mut [u64; 32])
    requires { (length out.old ≡ 32) × SizedBy operation × RowsWithin operation sources.now }
    ensures { out.new ≡ tab 32 (result_at operation sources.now) }
{
    match operation {
        Operation::Mov(imm) => each(move |_, _, _| u64::from(imm), sources, out),
        Operation::GetSr => each(move |a, _, _| a, sources, out),
        Operation::Iadd(o) => each(move |a, b, _| sums::iadd(o, a, b), sources, out),
        Operation::Imadd(o) => each(move |a, b, c| sums::imadd(o, a, b, c), sources, out),
        Operation::Bfi(m) => each(move |a, b, c| fields::bfi(m, a, b, c), sources, out),
        Operation::Bfeil(m) => each(move |a, b, c| fields::bfeil(m, a, b, c), sources, out),
        Operation::Extr(m) => each(move |a, b, c| fields::extr(m, a, b, c), sources, out),
        Operation::Shlhi(m) => each(move |a, b, c| fields::shlhi(m, a, b, c), sources, out),
        Operation::Shrhi(m) => each(move |a, b, c| fields::shrhi(m, a, b, c), sources, out),
        Operation::Asr(size) => each(move |a, b, _| signs::asr(size, a, b), sources, out),
        Operation::Asrh(size) => each(move |a, b, _| signs::asrh(size, a, b), sources, out),
        Operation::Bitop(o) => each(move |a, b, _| bitwise::bitop(o, a, b), sources, out),
        Operation::Bitrev => each(move |a, _, _| bitwise::bitrev(a), sources, out),
        Operation::Popcount => each(move |a, _, _| bitwise::popcount(a), sources, out),
        Operation::Ffs => each(move |a, _, _| bitwise::ffs(a), sources, out),
        Operation::PopExec(n) => each(move |_, _, c| nesting::pop_exec(n, c), sources, out),
        Operation::IfIcmp(o) => each(move |a, b, c| nesting::if_icmp(o, a, b, c), sources, out),
        Operation::WhileIcmp(o) => each(
            move |a, b, c| nesting::while_icmp(o, a, b, c),
            sources,
            out,
        ),
        Operation::ElseIcmp(o) => each(move |a, b, c| nesting::else_icmp(o, a, b, c), sources, out),
    }
}
