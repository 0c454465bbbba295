//! The number that is added to the places of a session.
ghost use Rattle.std.specs.Prelude.{◌≤◌, ◌+◌, ◌^◌};

use ring_any::Any;
use ring_table::Tabled;
use std::marker::PhantomData;

/// A number that is added to each place of a table. The sums fit in 64 bits.
#[derive(Drop)]
pub(crate) struct Base<T: Tabled<Any> + Drop> {
    pub(crate) number: usize,
    pub(crate) of: PhantomData<T>,
    ghost fits: { number + T.most ≤ 2 ^ 64 },
}
