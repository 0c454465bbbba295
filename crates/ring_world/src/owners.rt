ghost use Rattle.std.specs.Option.{ForSome};
ghost use Rattle.std.specs.Prelude.{◌≡◌, IsSome, OnOk};

use ring_election::RingElection;
use ring_id::NoMemory;
use ring_node::Charter;
use std::sync::Arc;

/// A shared charter, and at times one more owner of it for the next report.
///
/// The spare owner goes to a report, and a new one is found before the next delivery. So the owners
/// are counted once for each report, and not once for each delivery.
#[derive(Drop)]
pub struct Owners<E: RingElection> {
    pub charter: Arc<Charter<E>>,
    pub spare: Option<Arc<Charter<E>>>,
    ghost same: { ForSome spare (λ copy. copy.value ≡ charter.value) },
}

impl<E: RingElection> Owners<E> {
    /// The owners of a charter: this one, and no spare one.
    pub fn of(charter: Arc<Charter<E>>) -> Owners<E>
        ensures { result.charter ≡ charter }
    {
        Owners {
            charter,
            spare: None,
        }
    }

    /// Finds an owner to give away, if none is kept. Fails only if the charter can't have a new
    /// owner.
    pub fn find(&mut self) -> Result<(), NoMemory>
        ensures same { self.new.charter ≡ self.old.charter }
        ensures found { OnOk result (IsSome self.new.spare) }
    {
        if self.spare.is_some() {
            return Ok(());
        }
        let Ok(copy) = Arc::try_clone(&self.charter) else {
            return Err(NoMemory);
        };
        self.spare = Some(copy);
        Ok(())
    }

    /// The owner that was found, to give away.
    pub fn take(&mut self) -> Arc<Charter<E>>
        requires { IsSome self.old.spare }
        ensures owner { result.value ≡ self.old.charter.value }
        ensures same { self.new.charter ≡ self.old.charter }
    {
        self.spare.take().unwrap()
    }
}
