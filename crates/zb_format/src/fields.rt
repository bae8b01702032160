ghost use Rattle.std.specs.Prelude.{◌≡◌, ◌++◌, ◌^◌, ◌<◌, ◌≤◌, ℕ, List, length, OnOk, IsOk};
ghost use Rattle.zb_format.specs.Encoded.{Adds, KeepsEncoded, IsCounting};

use crate::{Encoder, Format};
use std::alloc::AllocError;

/// Fields that are written one behind another.
pub trait Fields {
    /// Their spelling.
    ghost spelled: { Self → List ℕ };

    /// What has one.
    ghost fit: { Self → Type 0 };

    /// Adds their spelling. After a refusal a part of it may stand behind what was there before.
    fn encode(&self, encoder: &mut Encoder) -> Result<(), AllocError>
        ensures added { OnOk result (Adds encoder.old (spelled self.now) encoder.new) }
        ensures kept { KeepsEncoded encoder.old encoder.new }
        ensures counts { IsCounting encoder.old → IsOk result }
        ensures some { OnOk result (1 ≤ length (spelled self.now)) }
        ensures fits { OnOk result (length (spelled self.now) < 2 ^ 32 → fit self.now) };
}

impl<T: Format> Fields for &T {
    ghost spelled = { λ r. T.layout.spelling r.now };

    ghost fit = { λ r. T.layout.fits r.now };

    fn encode(&self, encoder: &mut Encoder) -> Result<(), AllocError> {
        (**self).write(encoder)
    }
}

impl<T: Format, F: Fields> Fields for (&T, F) {
    ghost spelled = { λ r. T.layout.spelling r.0.now ++ F.spelled r.1 };

    ghost fit = { λ r. T.layout.fits r.0.now × F.fit r.1 };

    #[tactic(auto, using(crate::proofs::Adding::pieces))]
    fn encode(&self, encoder: &mut Encoder) -> Result<(), AllocError> {
        self.0.write(encoder)?;
        self.1.encode(encoder)
    }
}
