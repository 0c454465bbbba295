ghost use Rattle.std.specs.Prelude.{◌≡◌, ℕ, ◌<◌, ◌≤◌, ◌↔◌, Some, nat_eq, IsTrue, IsSome, IfSome};
ghost use Rattle.std.specs.Cmp.Rules.{comparing, hashing};
ghost use Rattle.std.specs.Hash as fed;
ghost use Rattle.std.specs.Ordering.{nat_cmp};
ghost use Rattle.std.proofs.Common.{rules};
ghost use Rattle.ring_id.specs.Identity.{number_of, rank_of, weight_of};

use std::cmp::Ordering;
use std::hash::{Hash, Hasher};
use std::marker::Model;

/// The number of a node, from 1 to 4294967295: clients name a node and look it up by its number.
///
/// Contracts see it as that natural number.
#[derive(Clone, Copy, Debug, PartialEq, Eq, PartialOrd, Ord, Hash)]
pub struct NodeNo {
    number: u32,
}

impl Model for NodeNo {
    ghost use Rattle.std.specs.Prelude.{ℕ, ◌<◌};

    ghost Value = { ℕ };

    ghost view = { λ a. a.number };

    ghost invariant = { λ a. 0 < a.number };

    ghost inverse = { λ n. record { number = n } };
}

impl NodeNo {
    /// Returns the node number with this value; `None` for 0.
    pub fn new(number: u32) -> Option<NodeNo>
        ensures there { IsSome result ↔ (0 < number) }
        ensures value { IfSome result (λ node. node ≡ number) }
    {
        if number == 0 {
            return None;
        }
        Some(NodeNo { number })
    }

    /// This number, which is never 0.
    pub fn get(self) -> u32
        ensures value { result ≡ self }
        ensures positive { 0 < result }
    {
        self.number
    }
}

/// The identity of a node: its number, from 1 to 4294967295, and a weight of 0 to 65535.
///
/// Identities are compared by weight. If the weights are equal, they are compared by number. Two
/// identities are equal if and only if both parts are equal. Contracts see an identity as its rank,
/// the weight times 2^32 plus the number. The rank has the same order. Ring algorithms only ever
/// compare identities (Lynch, Distributed Algorithms, 3.1).
#[derive(Clone, Copy, Debug)]
pub struct NodeId {
    // in this order both fields are read as one word, the rank
    number: NodeNo,
    weight: u32,
}

impl Model for NodeId {
    ghost use Rattle.std.specs.Prelude.{ℕ, ◌<◌, ◌≡◌, refl};
    ghost use Rattle.ring_id.specs.Identity.{number_of, rank_of, weight_of};
    ghost use Rattle.ring_id.specs.laws.Ranks.{number_of-rank, weight_of-rank};

    ghost Value = { ℕ };

    ghost view = { λ a. rank_of a.weight a.number };

    ghost invariant = { λ a. (0 < a.number) × (a.number < 4294967296) × (a.weight < 65536) };

    ghost inverse = { λ rank. record { number = number_of rank; weight = weight_of rank } };

    ghost inverse_ok = { λ a h. Prim.rw
        (weight_of-rank a.weight a.number h.1, number_of-rank a.weight a.number h.1) refl };
}

impl NodeId {
    /// Returns the identity with this number and weight 0; `None` for the number 0.
    pub fn new(number: u32) -> Option<NodeId>
        ensures there { IsSome result ↔ (0 < number) }
        ensures value { IfSome result (λ id. id ≡ number) }
    {
        NodeId::weighted(number, 0)
    }

    /// Returns the identity with this number and this weight; `None` for the number 0.
    pub fn weighted(number: u32, weight: u16) -> Option<NodeId>
        ensures there { IsSome result ↔ (0 < number) }
        ensures value { IfSome result (λ id. id ≡ rank_of weight number) }
        ensures number { IfSome result (λ id. number_of id ≡ number) }
        ensures weight { IfSome result (λ id. weight_of id ≡ weight) }
    {
        let number = NodeNo::new(number)?;
        Some(NodeId {
            number,
            weight: weight as u32,
        })
    }

    /// The number of this identity, by which it is looked up. The number and the weight make up the
    /// rank, so together they give the whole identity.
    pub fn number(self) -> NodeNo
        ensures value { result ≡ number_of self }
        ensures whole { self ≡ rank_of (weight_of self) result }
    {
        self.number
    }

    /// The weight of this identity, 0 if it was given none.
    pub fn weight(self) -> u16
        ensures value { result ≡ weight_of self }
    {
        self.weight as u16
    }

    /// The plain number of this identity, which is never 0.
    pub fn get(self) -> u32
        ensures value { result ≡ number_of self }
        ensures positive { 0 < result }
    {
        self.number.get()
    }

    /// The rank of this identity.
    fn rank(self) -> u64
        ensures { result ≡ self }
    {
        (self.weight as u64) * 4294967296 + self.number.get() as u64
    }
}

impl PartialEq for NodeId {
    ghost eq = { nat_eq };

    ghost laws = { Prim.search (comparing, rules) };

    fn eq(&self, other: &NodeId) -> bool {
        self.rank() == other.rank()
    }
}

impl Eq for NodeId {
    ghost laws = { Prim.search rules };
}

impl PartialOrd for NodeId {
    ghost partial_cmp = { λ a b. Some (nat_cmp a b) };

    ghost laws = { Prim.search (comparing, rules) };

    fn partial_cmp(&self, other: &NodeId) -> Option<Ordering> {
        Some(self.cmp(other))
    }
}

impl Ord for NodeId {
    ghost cmp = { nat_cmp };

    ghost total = { Prim.search rules };

    ghost matches_partial_cmp = { Prim.search rules };

    ghost matches_eq = { Prim.search rules };

    fn cmp(&self, other: &NodeId) -> Ordering {
        self.rank().cmp(&other.rank())
    }
}

impl Hash for NodeId {
    ghost hash_input = { λ rank. fed.u64 rank };

    ghost respects_eq = { Prim.search (hashing, rules) };

    fn hash<H: Hasher>(&self, state: &mut H) {
        self.rank().hash(state);
    }
}

/// Whether the first of two identities is greater: its weight is greater, or the weights are equal
/// and its number is greater. This is the order of ranks, and the order of `>`.
pub fn is_greater(a: NodeId, b: NodeId) -> bool
    ensures { IsTrue result ↔ (b < a) }
{
    a > b
}

/// Whether two lists hold the same identities in the same order. Does not allocate.
pub fn same_ids(a: &[NodeId], b: &[NodeId]) -> bool
    ensures { IsTrue result ↔ (a.now ≡ b.now) }
{
    if a.len() != b.len() {
        return false;
    }
    let mut same = true;
    // compared lists are nearly always equal, so the loop does not leave early
    for place in 0..a.len() {
        same &= a[place] == b[place];
    }
    same
}
