//! Comparisons without a contract.

use std::fmt::Debug;
use std::process::Abort;

/// Fails a test where what it got is not what is due, and prints both. It promises nothing, so a test's next lines are checked
/// without what was compared so far.
pub fn assert_equal<T: PartialEq + Debug + Drop>(rt: &impl Abort, got: T, due: T) {
    assert_eq!(rt; got, due);
}
