//! Compares two values in one function, so that each comparison in a test needs little proof.

use std::fmt::Debug;
use std::process::Abort;

/// Ends the test and prints both values, unless they are equal.
pub(crate) fn same<T: PartialEq + Debug + Drop>(rt: &impl Abort, left: T, right: T) {
    assert_eq!(rt; left, right);
}
