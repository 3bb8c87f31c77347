// The words of an answer after its address.
ghost use Rattle.std.specs.Prelude.{◌≡◌, ◌<◌};
ghost use Rattle.comparison.specs.AnswerLine.{word_of, kernel_number, ended_words, refused_words, Short};
ghost use Rattle.comparison.specs.declared.Field.{Field};
ghost use Rattle.digits.specs.Digits.{digit};
ghost use Rattle.compareline.specs.Words.{Says};

use comparison::{Field, Kernel};
use isa::answer;
use isa::answer::Refusal;

// The first `length` characters of a text of eleven; blanks follow. By value: a slice of a lent room would say nothing of what is left in it.
#[derive(Clone, Copy)]
pub struct Words {
    pub text: [u8; 11],
    pub length: usize,
}

fn of_other(bit: u8) -> Words
    requires { bit < 100 }
    ensures { Says result (word_of (Field.Other bit)) }
{
    let mut text = *b"field      ";
    if bit < 10 {
        text[6] = digits::hex_digit(bit);
        Words { text, length: 7 }
    } else {
        text[6] = digits::hex_digit(bit / 10);
        text[7] = digits::hex_digit(bit % 10);
        Words { text, length: 8 }
    }
}

pub fn of_field(field: Field) -> Words
    requires { Short field }
    ensures { Says result (word_of field) }
{
    match field {
        Field::Instruction => Words {
            text: *b"instruction",
            length: 11,
        },
        Field::Length => Words {
            text: *b"length     ",
            length: 6,
        },
        Field::Destination => Words {
            text: *b"destination",
            length: 11,
        },
        Field::SourceA => Words {
            text: *b"source A   ",
            length: 8,
        },
        Field::SourceB => Words {
            text: *b"source B   ",
            length: 8,
        },
        Field::SourceC => Words {
            text: *b"source C   ",
            length: 8,
        },
        Field::Immediate => Words {
            text: *b"immediate  ",
            length: 9,
        },
        Field::Other(bit) => of_other(bit),
        Field::Hint => Words {
            text: *b"hint       ",
            length: 4,
        },
        Field::Bit => Words {
            text: *b"bit        ",
            length: 3,
        },
    }
}

// A character of the line, and not a number of the kernel.
fn kernel_digit(k: Kernel) -> u8
    ensures { result ≡ digit (kernel_number k) }
{
    match k {
        Kernel::First => b'1',
        Kernel::Second => b'2',
    }
}

pub fn of_ended(k: Kernel) -> [u8; 7]
    ensures { result ≡ ended_words k }
{
    let mut words = *b"ended 0";
    words[6] = kernel_digit(k);
    words
}

pub fn of_refused(r: Refusal, k: Kernel) -> [u8; 11]
    ensures { result ≡ refused_words r k }
{
    let mut words = *b"refused 0 0";
    words[8] = digits::hex_digit(answer::number(r));
    words[10] = kernel_digit(k);
    words
}
