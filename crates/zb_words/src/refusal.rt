ghost use Rattle.std.specs.Prelude.{◌≡◌, ⊤};
ghost use Rattle.zb_words.specs.declared.refusal.Refusal.TheVariants.{Memory};

use std::alloc::AllocError;

/// Why what clap read is no plan.
#[derive(Clone, Copy)]
pub enum Refusal {
    /// A word isn't what it has to be, which the text says.
    Wants(&'static str),
    Memory,
}

impl From<&'static str> for Refusal {
    ghost from_gives = { λ _ _. ⊤ };

    fn from(wanted: &'static str) -> Self {
        Refusal::Wants(wanted)
    }
}

impl From<AllocError> for Refusal {
    ghost from_gives = { λ _ refusal. refusal ≡ Memory };

    fn from(_: AllocError) -> Self {
        Refusal::Memory
    }
}
