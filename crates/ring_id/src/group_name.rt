ghost use Rattle.std.specs.Prelude.{◌≡◌, ◌↔◌, IfOk, IfErr, IsOk, IsTrue};
ghost use Rattle.std.specs.List.{list_all};
ghost use Rattle.ring_id.specs.GroupName.{IsName, is_name_byte};
ghost use Rattle.ring_id.specs.declared.refusal.Refusal.TheVariants as refused;

use crate::refusal::Refusal;
use std::hash::{Hash, Hasher};
use std::marker::Model;

/// The greatest number of bytes of a group name.
const LONGEST: usize = 16;

/// The name of a group: 1 to 16 bytes, each a lowercase letter, a digit or a hyphen.
///
/// Contracts see a name as the list of its bytes.
#[derive(Clone, Copy, Debug)]
pub struct GroupName {
    bytes: [u8; 16],
    len: usize,
}

impl Model for GroupName {
    ghost use Rattle.std.specs.Prelude.{◌≡◌, List, ℕ, take, length, refl};
    ghost use Rattle.ring_id.specs.GroupName.{IsName, padded};

    ghost Value = { List ℕ };

    ghost view = { λ a. take a.len a.bytes };

    ghost invariant = { λ a. IsName (take a.len a.bytes) × (a.len ≡ length (take a.len a.bytes))
        × (a.bytes ≡ padded (take a.len a.bytes)) };

    ghost inverse = { λ bytes. record { bytes = padded bytes; len = length bytes } };

    ghost inverse_ok = { λ a h. Prim.rw (← h.2, ← h.1) refl };
}

impl GroupName {
    /// Returns the name with these bytes; `BadLine` if they are no name.
    pub fn from_bytes(bytes: &[u8]) -> Result<GroupName, Refusal>
        ensures taken { IsOk result ↔ IsName bytes.now }
        ensures ok { IfOk result (λ name. name ≡ bytes.now) }
        ensures err { IfErr result (λ r. r ≡ refused.BadLine) }
    {
        if bytes.is_empty() || bytes.len() > LONGEST || !all_in_names(bytes) {
            return Err(Refusal::BadLine);
        }
        let mut all = [0; LONGEST];
        all[..bytes.len()].copy_from_slice(bytes);
        Ok(GroupName {
            bytes: all,
            len: bytes.len(),
        })
    }

    /// The bytes of this name.
    pub fn bytes(&self) -> &[u8]
        ensures value { result.now ≡ self.now }
        ensures name { IsName result.now }
    {
        &self.bytes[..self.len]
    }
}

fn all_in_names(bytes: &[u8]) -> bool
    ensures { result ≡ list_all is_name_byte bytes.now }
{
    bytes
        .iter()
        .all(|b| matches!(*b, b'a'..=b'z' | b'0'..=b'9' | b'-'))
}

impl PartialEq for GroupName {
    ghost use Rattle.std.specs.Cmp.{partial_equiv_from_equiv};
    ghost use Rattle.std.specs.Str.{bytes_eq};
    ghost use Rattle.std.proofs.lemmas.Cmp.{nat_list_eq_equiv};

    ghost eq = { bytes_eq };

    ghost laws = { partial_equiv_from_equiv nat_list_eq_equiv };

    fn eq(&self, other: &GroupName) -> bool {
        // the zeros after a name give its length, so both words are compared whole
        self.bytes == other.bytes
    }
}

impl Eq for GroupName {
    ghost use Rattle.std.proofs.lemmas.Cmp.{nat_list_eq_equiv};

    ghost laws = { nat_list_eq_equiv };
}

impl Hash for GroupName {
    ghost use Rattle.std.specs.Prelude.{List, ℕ, ◌∷◌, []};
    ghost use Rattle.std.proofs.Common.{ap};
    ghost use Rattle.std.proofs.lemmas.Slice.Eq.{bytes_eq-Decides};
    ghost use Rattle.ring_id.specs.GroupName.{padded};

    ghost hash_input = { λ name. padded name ∷ [] };

    ghost respects_eq = { λ x y h. ap (λ (b : List ℕ). padded b ∷ [])
        ((bytes_eq-Decides x y).0 h) };

    fn hash<H: Hasher>(&self, state: &mut H) {
        state.write(&self.bytes);
    }
}
