// The rows of document 002's bit diagrams, one table in document order: what finding and encoding read of each.
#![tactic(auto)]

ghost use Rattle.std.specs.Prelude.{◌≡◌, ◌<◌, get_or};
ghost use Rattle.isa.specs.Decode.{row_at};
ghost use Rattle.isa.specs.Diagram.{fixed_value};
ghost use Rattle.rows.specs.Table.{table, no_row};

// A row: its length in bytes, its bit L or 0, ones at its fixed bits, and their values.
#[derive(Clone, Copy)]
pub struct Row {
    pub bytes: usize,
    pub bit_l: u64,
    pub fixed: u64,
    pub value: u64,
}

// The row at a place. A group of digits is a cell of the strip, from the top bit down. A match and not an array: an array would be
// laid out on the stack at each call.
// A place is a number, as in the definition `table`: the place in the list of the document.
pub fn row_at(place: usize) -> Row
    requires { place < 22 }
    ensures { result ≡ get_or table place no_row }
{
    match place {
        // ---- Move Instructions

        // mov (Move 16-bit Immediate)
        0 => Row {
            bytes: 6,
            bit_l: 0b00_00_000000000000_0000000000000000_1_000000_00_0000000,
            fixed: 0b00_00_000000000000_0000000000000000_0_000000_10_1111111,
            value: 0b00_00_000000000000_0000000000000000_0_000000_00_1100010,
        },

        // mov (Move 32-bit Immediate)
        1 => Row {
            bytes: 8,
            bit_l: 0b00_00_000000000000_00000000000000000000000000000000_1_000000_00_0000000,
            fixed: 0b00_00_000000000000_00000000000000000000000000000000_0_000000_10_1111111,
            value: 0b00_00_000000000000_00000000000000000000000000000000_0_000000_10_1100010,
        },

        // get_sr (Move From Special Register)
        2 => Row {
            bytes: 4,
            bit_l: 0,
            fixed: 0b00_00_00_0000_000000_1_000000_00_1111111,
            value: 0b00_00_00_0000_000000_0_000000_00_1110010,
        },

        // ---- Integer Arithmetic Instructions

        // iadd (Integer Add or Subtract)
        3 => Row {
            bytes: 8,
            bit_l: 0,
            fixed: 0b0000000000_00_000000_00_00_00_0_0_0000_000000_0_0_0000_000000_1_000000_00_0_111111,
            value: 0b0000000000_00_000000_00_00_00_0_0_0000_000000_0_0_0000_000000_0_000000_00_0_001110,
        },

        // imadd (Integer Multiply-Add or Subtract)
        4 => Row {
            bytes: 8,
            bit_l: 0,
            fixed: 0b00_00_00_00_00_00_0_0_0000_000000_0_0_0000_000000_0_0_0000_000000_1_000000_00_0_111111,
            value: 0b00_00_00_00_00_00_0_0_0000_000000_0_0_0000_000000_0_0_0000_000000_0_000000_00_0_011110,
        },

        // ---- Shift/Bitfield Instructions

        // bfi (Bitfield Insert/Shift Left)
        5 => Row {
            bytes: 8,
            bit_l: 0,
            fixed: 0b0_0_00_00_00_00_00_00_0000_000000_00_0000_000000_11_0000_000000_1_000000_00_1111111,
            value: 0b0_0_00_00_00_00_00_00_0000_000000_00_0000_000000_00_0000_000000_0_000000_00_0101110,
        },

        // bfeil (Bitfield Extract and Insert Low/Shift Right)
        6 => Row {
            bytes: 8,
            bit_l: 0,
            fixed: 0b0_0_00_00_00_00_00_00_0000_000000_00_0000_000000_11_0000_000000_1_000000_00_1111111,
            value: 0b0_0_00_00_00_00_00_00_0000_000000_00_0000_000000_00_0000_000000_1_000000_00_0101110,
        },

        // extr (Extract From Register Pair)
        7 => Row {
            bytes: 8,
            bit_l: 0,
            fixed: 0b0_0_00_00_00_00_00_00_0000_000000_00_0000_000000_11_0000_000000_1_000000_00_1111111,
            value: 0b0_0_00_00_00_00_00_00_0000_000000_00_0000_000000_01_0000_000000_0_000000_00_0101110,
        },

        // shlhi (Shift Left High and Insert)
        8 => Row {
            bytes: 8,
            bit_l: 0,
            fixed: 0b0_0_00_00_00_00_00_00_0000_000000_00_0000_000000_11_0000_000000_1_000000_00_1111111,
            value: 0b0_0_00_00_00_00_00_00_0000_000000_00_0000_000000_10_0000_000000_0_000000_00_0101110,
        },

        // shrhi (Shift Right High and Insert)
        9 => Row {
            bytes: 8,
            bit_l: 0,
            fixed: 0b0_0_00_00_00_00_00_00_0000_000000_00_0000_000000_11_0000_000000_1_000000_00_1111111,
            value: 0b0_0_00_00_00_00_00_00_0000_000000_00_0000_000000_10_0000_000000_1_000000_00_0101110,
        },

        // asr (Arithmetic Shift Right)
        10 => Row {
            bytes: 8,
            bit_l: 0,
            fixed: 0b00_00_00_00_000000000000000000_0000_000000_11_0000_000000_1_000000_00_1111111,
            value: 0b00_00_00_00_000000000000000000_0000_000000_01_0000_000000_1_000000_00_0101110,
        },

        // asrh (Arithmetic Shift Right High)
        11 => Row {
            bytes: 8,
            bit_l: 0,
            fixed: 0b00_00_00_00_000000000000000000_0000_000000_11_0000_000000_1_000000_00_1111111,
            value: 0b00_00_00_00_000000000000000000_0000_000000_11_0000_000000_1_000000_00_0101110,
        },

        // ---- Bit Manipulation Instructions

        // bitop (Bitwise Operation)
        12 => Row {
            bytes: 6,
            bit_l: 0,
            fixed: 0b00_00_00_00_0_0_0000_000000_0_0_0000_000000_1_000000_00_1111111,
            value: 0b00_00_00_00_0_0_0000_000000_0_0_0000_000000_0_000000_00_1111110,
        },

        // bitrev (Reverse Bits)
        13 => Row {
            bytes: 6,
            bit_l: 0,
            fixed: 0b00_00_00_00_11111111111111_0000_000000_1_000000_00_1111111,
            value: 0b00_00_00_00_00000000000001_0000_000000_0_000000_00_0111110,
        },

        // popcount (Population Count)
        14 => Row {
            bytes: 6,
            bit_l: 0,
            fixed: 0b00_00_00_00_11111111111111_0000_000000_1_000000_00_1111111,
            value: 0b00_00_00_00_00000000000010_0000_000000_0_000000_00_0111110,
        },

        // ffs (Find First Set)
        15 => Row {
            bytes: 6,
            bit_l: 0,
            fixed: 0b00_00_00_00_11111111111111_0000_000000_1_000000_00_1111111,
            value: 0b00_00_00_00_00000000000011_0000_000000_0_000000_00_0111110,
        },

        // ---- Flow Control Instructions

        // jmp_exec_any
        16 => Row {
            bytes: 6,
            bit_l: 0,
            fixed: 0b00000000000000000000000000000000_1111111111111111,
            value: 0b00000000000000000000000000000000_1100000000000000,
        },

        // jmp_exec_none
        17 => Row {
            bytes: 6,
            bit_l: 0,
            fixed: 0b00000000000000000000000000000000_1111111111111111,
            value: 0b00000000000000000000000000000000_1100000000100000,
        },

        // ---- Execution Mask Stack Instructions

        // pop_exec
        18 => Row {
            bytes: 6,
            bit_l: 0,
            fixed: 0b11111111111111111111111111111111111_00_11_0_0_1111111,
            value: 0b00000000000000000000000000000000000_00_11_0_0_1010010,
        },

        // if_icmp
        19 => Row {
            bytes: 6,
            bit_l: 0,
            fixed: 0b00_11_00_00_11_0000_000000_11_0000_000000_000_00_11_0_0_1111111,
            value: 0b00_00_00_00_00_0000_000000_00_0000_000000_000_00_00_0_0_1010010,
        },

        // while_icmp
        20 => Row {
            bytes: 6,
            bit_l: 0,
            fixed: 0b00_11_00_00_11_0000_000000_11_0000_000000_000_00_11_0_0_1111111,
            value: 0b00_00_00_00_00_0000_000000_00_0000_000000_000_00_10_0_0_1010010,
        },

        // else_icmp
        _ => Row {
            bytes: 6,
            bit_l: 0,
            fixed: 0b00_11_00_00_11_0000_000000_11_0000_000000_000_00_11_0_0_1111111,
            value: 0b00_00_00_00_00_0000_000000_00_0000_000000_000_00_01_0_0_1010010,
        },
    }
}

// The values of a row's fixed bits, for encoding. Asked for alone, they are a constant or one load in the compiled code.
pub fn value_at(place: usize) -> u64
    requires { place < 22 }
    ensures { result ≡ fixed_value (row_at place).fixeds }
{
    row_at(place).value
}
