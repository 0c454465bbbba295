//! The groups of a service: how each elects, and the charter of its last term.

use ring_any::Any;
use ring_id::GroupName;
use ring_node::Charter;
use ring_terms::Book;
use std::alloc::{AllocError, Global};
use std::sync::Arc;

// The most groups of a book.
const MOST: usize = 256;

// A group that is noted.
#[derive(Drop)]
struct Noted {
    name: GroupName,
    algorithm: Any,
    // the charter of its last term, if one was started
    charter: Option<Arc<Charter<Any>>>,
}

/// Groups with their algorithms and the charters of their last terms. It has room for all groups of
/// a book from the start, so noting does not allocate. Tested, not proved.
#[derive(Drop)]
pub(crate) struct Directory {
    groups: Vec<Noted>,
}

impl Directory {
    /// Returns a directory without groups.
    pub(crate) fn new(alloc: Global) -> Result<Directory, AllocError> {
        let groups = Vec::with_capacity(alloc, MOST)?;
        Ok(Directory { groups })
    }

    /// Returns the directory of a book's groups.
    pub(crate) fn of_book(alloc: Global, book: &Book<Any>) -> Result<Directory, AllocError> {
        let mut directory = Directory::new(alloc)?;
        for place in 0..book.len() {
            if let Some(group) = book.group_at(place) {
                directory.create(group.name(), group.algorithm());
                if let Ok(charter) = book.running(group.name()) {
                    directory.begin(charter)?;
                }
            }
        }
        Ok(directory)
    }

    /// Notes a group that was created, unless it is noted already.
    pub(crate) fn create(&mut self, name: GroupName, algorithm: Any) {
        if self.find(name).is_none() {
            self.add(Noted {
                name,
                algorithm,
                charter: None,
            });
        }
    }

    /// Notes a term that was started, unless a later one of its group is noted.
    pub(crate) fn begin(&mut self, charter: &Arc<Charter<Any>>) -> Result<(), AllocError> {
        let copy = Arc::try_clone(charter)?;
        let name = copy.group();
        match self.find(name) {
            Some(place) => self.put(place, copy),
            None => self.add(Noted {
                name,
                algorithm: copy.algorithm(),
                charter: Some(copy),
            }),
        }
        Ok(())
    }

    // Adds a group, if there is room for it.
    fn add(&mut self, group: Noted) {
        if self.groups.len() < self.groups.capacity() {
            self.groups.push_reserved(group);
        }
    }

    // Puts a charter to the group at this place, unless a later one is there.
    fn put(&mut self, place: usize, charter: Arc<Charter<Any>>) {
        if let Some(group) = self.groups.get_mut(place)
            && is_news(&group.charter, &charter)
        {
            group.charter = Some(charter);
        }
    }

    /// Returns the algorithm of a group, or `None` if the group is not noted.
    pub(crate) fn algorithm(&self, name: GroupName) -> Option<Any> {
        let place = self.find(name)?;
        let group = self.groups.get(place)?;
        Some(group.algorithm)
    }

    /// Returns the charter of a group's last term, or `None` if none is noted.
    pub(crate) fn charter(&self, name: GroupName) -> Option<Arc<Charter<Any>>> {
        let place = self.find(name)?;
        let group = self.groups.get(place)?;
        let charter = group.charter.as_ref()?;
        Arc::try_clone(charter).ok()
    }

    // Returns the place of a group, or `None` if it is not noted.
    fn find(&self, name: GroupName) -> Option<usize> {
        self.groups.iter().position(|group| group.name == name)
    }
}

// Returns whether a term is later than the one that is noted of its group.
fn is_news(noted: &Option<Arc<Charter<Any>>>, charter: &Charter<Any>) -> bool {
    match noted {
        Some(last) => last.term() < charter.term(),
        None => true,
    }
}
