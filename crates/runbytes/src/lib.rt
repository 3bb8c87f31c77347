// A run whose registers, uniforms and special registers are lent as little-endian bytes.
#![tactic(auto)]

ghost use Rattle.std.specs.Prelude.{length};
ghost use Rattle.runbytes.specs.RunBytes.{RanOnBytes, lent_of};
ghost use Rattle.runbytes.specs.Space.{Space, RanIn};

use bits::piece;
use isa::answer::Refusal;
use machine::answer::Ending;
use sizes::Sizes;

// A call that is taken, with space for the words.
fn run_in(
    code: &[u8],
    registers: &mut [u8],
    marks: &mut [u8],
    uniforms: &[u8],
    specials: &[u8],
    start: usize,
    mask: u32,
    budget: usize,
    records: &mut [u8],
    answer: &mut [u8],
    r: &mut [u32],
    u: &mut [u32],
    s: &mut [u32],
) -> Ending
    requires { Space (lent_of code.now registers.old marks.old uniforms.now specials.now start mask budget records.old answer.old)
        (length r.old) (length u.old) (length s.old) }
    ensures { RanIn (lent_of code.now registers.old marks.old uniforms.now specials.now start mask budget records.old answer.old)
        result registers.new marks.new records.new answer.new r.new u.new s.new }
{
    words::load(registers, r);
    words::load(uniforms, u);
    words::load(specials, s);
    let a = run::run(code, r, marks, u, s, start, mask, budget, records);
    words::store(r, registers);
    let bytes = answers::run::bytes(a);
    piece::put(answer, 0, &bytes);
    a.ending
}

// A run on the words that the bytes spell. Refused with 1, nothing is written. The words stand on the stack: 49 KiB.
pub fn run(
    code: &[u8],
    registers: &mut [u8],
    marks: &mut [u8],
    uniforms: &[u8],
    specials: &[u8],
    start: usize,
    mask: u32,
    budget: usize,
    records: &mut [u8],
    answer: &mut [u8],
) -> Ending
    ensures { RanOnBytes (lent_of code.now registers.old marks.old uniforms.now specials.now start mask budget records.old answer.old)
        result registers.new marks.new records.new answer.new }
{
    let n = registers.len() / 4;
    let m = uniforms.len() / 4;
    let k = specials.len() / 4;
    if !sizes::lent::spelled(
        registers.len(),
        uniforms.len(),
        specials.len(),
        answer.len(),
    ) {
        return Ending::Refused(Refusal::BadSize);
    }
    let sizes = Sizes {
        code: code.len(),
        registers: n,
        marks: marks.len(),
        uniforms: m,
        specials: k,
        start,
        budget,
        records: records.len(),
    };
    if !sizes.arranged() {
        return Ending::Refused(Refusal::BadSize);
    }
    let mut r = [0u32; 4096];
    let mut u = [0u32; 256];
    let mut s = [0u32; 8192];
    run_in(
        code,
        registers,
        marks,
        uniforms,
        specials,
        start,
        mask,
        budget,
        records,
        answer,
        &mut r[..n],
        &mut u,
        &mut s[..k],
    )
}
