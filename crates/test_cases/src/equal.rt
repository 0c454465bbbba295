//! The value that a test wants.

use std::fmt::Debug;
use std::process::Abort;

/// Stops the test if a value is not the wanted one. The message has both values and `what`.
pub fn equal<T: PartialEq + Debug + Drop>(rt: &impl Abort, what: &str, found: T, wanted: T) {
    assert_eq!(rt; found, wanted, "{what}");
}
