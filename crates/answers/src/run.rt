// The answer of a run as 24 bytes.
ghost use Rattle.std.specs.Prelude.{◌≡◌};
ghost use Rattle.answers.specs.Run.{ending_number, refusal_number, answer_bytes};

use machine::answer::{Answer, Ending};

// The numbers of the C interface.
fn ending_number(e: Ending) -> u8
    ensures { result ≡ ending_number e }
{
    match e {
        Ending::Finished => 0,
        Ending::Spent => 1,
        Ending::Refused(_) => 2,
    }
}

fn refusal_number(e: Ending) -> u8
    ensures { result ≡ refusal_number e }
{
    match e {
        Ending::Finished => 0,
        Ending::Spent => 0,
        Ending::Refused(r) => isa::answer::number(r),
    }
}

pub fn bytes(a: Answer) -> [u8; 24]
    ensures { result ≡ answer_bytes a }
{
    let e = a.ending;
    let n = bits::bytes_of(a.steps as u64);
    let m = bits::bytes_of(u64::from(a.mask));
    let p = bits::bytes_of(a.address as u64);
    [
        ending_number(e),
        0,
        0,
        0,
        refusal_number(e),
        0,
        0,
        0,
        n[0],
        n[1],
        n[2],
        n[3],
        m[0],
        m[1],
        m[2],
        m[3],
        p[0],
        p[1],
        p[2],
        p[3],
        p[4],
        p[5],
        p[6],
        p[7],
    ]
}
