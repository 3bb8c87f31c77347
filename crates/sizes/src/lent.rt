// The sizes in bytes of what is lent to a run.
ghost use Rattle.std.specs.Prelude.{◌≡◌};
ghost use Rattle.sizes.specs.Lent.{whole_words, spelled_by};

fn whole_words(bytes: usize) -> bool
    ensures { result ≡ whole_words bytes }
{
    bytes % 4 == 0
}

// The bytes spell words, and there is room for the answer.
pub fn spelled(registers: usize, uniforms: usize, specials: usize, answer: usize) -> bool
    ensures { result ≡ spelled_by registers uniforms specials answer }
{
    whole_words(registers) && whole_words(uniforms) && whole_words(specials) && 24 <= answer
}
