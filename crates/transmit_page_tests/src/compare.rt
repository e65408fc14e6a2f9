//! Comparisons without a contract.

use std::fmt::Debug;
use std::process::Abort;

/// Fails a test where what it got is not what is due, and prints both. It promises nothing, so a test's next lines are checked
/// without what was compared so far.
pub fn assert_equal<T: PartialEq + Debug + Drop>(rt: &impl Abort, got: T, due: T) {
    assert_eq!(rt; got, due);
}

/// The same of one case out of several, which it prints too.
pub fn assert_equal_at<T: PartialEq + Debug + Drop, C: Debug + Drop>(
    rt: &impl Abort,
    got: T,
    due: T,
    case: C,
) {
    assert_eq!(rt; got, due, "{:?}", case);
}
