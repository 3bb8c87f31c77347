// Which rows a word can match, by its lowest seven bits: they stand side by side in the table. An index for speed, which the check holds to
// the rows.
ghost use Rattle.std.specs.Prelude.{◌≡◌, ◌<◌};
ghost use Rattle.rows.specs.Table.{table};
ghost use Rattle.finding.specs.Candidates.{candidates_of};

use std::ops::Range;

#[tactic(auto, unfolding(isa::specs::Rows::rows, rows::specs::Table::table))]
pub fn rows_with(low: u64) -> Range<usize>
    requires { low < 128 }
    ensures { result ≡ candidates_of low table }
{
    match low {
        0b1100010 => 0..2,
        0b1110010 => 2..3,
        0b0001110 => 3..4,
        0b1001110 => 3..4,
        0b0011110 => 4..5,
        0b1011110 => 4..5,
        0b0101110 => 5..12,
        0b1111110 => 12..13,
        0b0111110 => 13..16,
        0b0000000 => 16..17,
        0b0100000 => 17..18,
        0b1010010 => 18..22,
        // none: past the last, and before the first
        _ => 22..0,
    }
}
