// The sizes of what is lent to a run.
#![tactic(auto)]

ghost use Rattle.std.specs.Prelude.{◌≡◌, ◌≤◌, eqb};
ghost use Rattle.machine.specs.Run.{marks_length};
ghost use Rattle.sizes.specs.Sizes.{columns_of, arranged_by};

pub mod lent;

const CODE_LIMIT: usize = 8192;

const BUDGET_LIMIT: usize = 4096;

// 32 x n words, n from fewest to most.
fn columns(words: usize, fewest: usize, most: usize) -> bool
    requires { (fewest ≤ 256) × (most ≤ 256) }
    ensures { result ≡ columns_of fewest most words }
{
    words % 32 == 0 && 32 * fewest <= words && words <= 32 * most
}

// Two marks for each word of the registers: one for each half.
fn marks_for(registers: usize, marks: usize) -> bool
    ensures { result ≡ eqb marks (marks_length registers) }
{
    marks % 2 == 0 && marks / 2 == registers
}

// The lengths of what is lent to a run, and what is asked of it.
#[derive(Clone, Copy)]
pub struct Sizes {
    pub code: usize,
    pub registers: usize,
    pub marks: usize,
    pub uniforms: usize,
    pub specials: usize,
    pub start: usize,
    pub budget: usize,
    pub records: usize,
}

impl Sizes {
    pub fn arranged(self) -> bool
        ensures { result
            ≡ arranged_by self.code self.registers self.marks self.uniforms self.specials self.start self.budget self.records }
    {
        self.code <= CODE_LIMIT
            && columns(self.registers, 1, 128)
            && marks_for(self.registers, self.marks)
            && self.uniforms == 256
            && columns(self.specials, 0, 256)
            && 1 <= self.budget
            && self.budget <= BUDGET_LIMIT
            && self.start % 2 == 0
            && self.start <= self.code
            && self.budget <= self.records / 16
    }
}
