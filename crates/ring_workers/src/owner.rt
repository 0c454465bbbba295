ghost use Rattle.std.specs.Prelude.{◌≡◌, ◌<◌, ℕ};
ghost use Rattle.ring_workers.specs.Owners.{owner_of};

use ring_id::NodeId;
use std::alloc::Global;
use std::marker::PhantomData;

/// The owner of nodes: a worker owns those whose number, modulo the number of workers, is its own.
#[derive(Clone, Copy)]
pub(crate) struct Owner {
    pub(crate) number: usize,
    pub(crate) workers: usize,
    ghost numbered: { number < workers },
}

impl Owner {
    /// The number of the worker that owns this member: the member's number modulo the number of
    /// workers. The weight of the member does not count.
    pub fn of(&self, member: NodeId) -> usize
        ensures value { result ≡ owner_of self.now.workers member }
        ensures numbered { result < self.now.workers }
    {
        member.get() as usize % self.workers
    }
}

/// A worker that has not run yet.
#[derive(Drop)]
pub struct Worker<E> {
    pub(crate) alloc: Global,
    pub(crate) owner: Owner,
    algorithm: PhantomData<E>,
}

impl<E> Worker<E> {
    /// The worker of this number among `workers`, which are numbered from 0. Does not allocate.
    pub fn new(alloc: Global, number: usize, workers: usize) -> Worker<E>
        requires { number < workers }
        ensures number { result.owner.number ≡ number }
        ensures workers { result.owner.workers ≡ workers }
    {
        Worker {
            alloc,
            owner: Owner { number, workers },
            algorithm: PhantomData,
        }
    }
}
