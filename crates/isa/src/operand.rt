// Operands. A half is numbered 2r for the low half of register r and 2r + 1 for its high half; a pair by its first register.

// What an instruction writes.
#[derive(Clone, Copy)]
pub enum Destination {
    Half(u8),
    Register(u8),
    Pair(u8),
}

// What an instruction reads.
#[derive(Clone, Copy)]
pub enum Source {
    Half(u8),
    Register(u8),
    Pair(u8),
    UniformHalf(u16),
    UniformRegister(u8),
    UniformPair(u8),
    Immediate(u8),
}

// A hint to the register cache. Only a register that is read can have Discard; immediates and uniforms have none.
#[derive(Clone, Copy)]
pub enum Hint {
    None,
    Cache,
    Discard,
}

// An operand with its hint beside it.
#[derive(Clone, Copy)]
pub struct Dst {
    pub destination: Destination,
    pub hint: Hint,
}

#[derive(Clone, Copy)]
pub struct Src {
    pub source: Source,
    pub hint: Hint,
}

// The operands of an instruction, by their letters in document 002.
#[derive(Clone, Copy)]
pub struct Unary {
    pub d: Dst,
    pub a: Src,
}

#[derive(Clone, Copy)]
pub struct Binary {
    pub d: Dst,
    pub a: Src,
    pub b: Src,
}

#[derive(Clone, Copy)]
pub struct Ternary {
    pub d: Dst,
    pub a: Src,
    pub b: Src,
    pub c: Src,
}

#[derive(Clone, Copy)]
pub struct Compared {
    pub a: Src,
    pub b: Src,
}
