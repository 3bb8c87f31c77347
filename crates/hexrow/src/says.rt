// What the numbers of a row say.
ghost use Rattle.std.specs.Prelude.{◌≡◌};
ghost use Rattle.hexrow.specs.Reads.{says_by};

use crate::{Fault, Row};

// The kind is the number that the row has at its type: every other than 0 and 1 has to be refused.
pub fn says(
    kind: usize,
    address: usize,
    count: usize,
    next: usize,
    size: usize,
) -> Result<Row, Fault>
    ensures { result ≡ says_by kind address count next size }
{
    if kind == 0 && address == next {
        Ok(Row::Data { count, size })
    } else if kind == 1 && address == 0 && count == 0 {
        Ok(Row::End { size })
    } else {
        Err(Fault::Order)
    }
}
