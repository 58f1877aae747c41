ghost use Rattle.std.specs.Prelude.{◌∷◌, []};
ghost use Rattle.std.proofs.Common.{rules};
ghost use Rattle.std.specs.Cmp.Rules.{hashing};

use std::hash::{Hash, Hasher};

/// The number of a slot.
pub type Slot = u64;

/// The address of an account: 32 bytes, ordered as such.
#[derive(Clone, Copy, Debug, Default, PartialEq, Eq, PartialOrd, Ord)]
pub struct Key(pub [u8; 32]);

/// Its bytes go in at once, without their number, which is the same for all keys.
impl Hash for Key {
    ghost hash_input = { λ key. key.0 ∷ [] };

    ghost respects_eq = { Prim.search (hashing, rules) };

    fn hash<H: Hasher>(&self, state: &mut H) {
        state.write(&self.0);
    }
}
