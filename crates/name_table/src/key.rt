//! A name as a key of the table.
ghost use Rattle.std.specs.Prelude.{[], ◌∷◌};
ghost use Rattle.std.proofs.Common.{ap};
ghost use Rattle.std.proofs.lemmas.Slice.Eq.{bytes_eq-Decides};

use std::hash::{Hash, Hasher};

// A name, whose bytes are hashed in one piece. The hash of a slice takes them one by one.
#[derive(Clone, Copy, PartialEq, Eq, PartialOrd, Ord)]
pub(crate) struct Key<'a> {
    pub(crate) name: &'a [u8],
}

impl Hash for Key<'_> {
    ghost hash_input = { λ k. k.name.now ∷ [] };

    ghost respects_eq = { λ x y e. ap (λ b. b ∷ []) ((bytes_eq-Decides x.name.now y.name.now).0 e) };

    fn hash<H: Hasher>(&self, state: &mut H) {
        state.write(self.name);
    }
}
