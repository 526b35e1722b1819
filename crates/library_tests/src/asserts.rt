//! What the tests hold, and what they tell where it does not hold.
//!
//! A macro that writes its message is proved at each place again, and that is most of what a test's proof would cost. These are
//! proved once. They promise nothing to their callers: where a proof needs what was held, std's macros stand.

use std::fmt::Debug;
use std::process::Abort;

/// The two are the same.
pub(crate) fn assert_same<T: PartialEq + Debug + Drop>(rt: &impl Abort, found: T, wanted: T) {
    assert!(rt; found == wanted, "{found:?} where {wanted:?} is wanted");
}

/// The two are the same. A message tells the case.
pub(crate) fn assert_same_in<T: PartialEq + Debug + Drop, C: Debug + Drop>(
    rt: &impl Abort,
    case: C,
    found: T,
    wanted: T,
) {
    assert!(rt;
        found == wanted,
        "{case:?}: {found:?} where {wanted:?} is wanted"
    );
}

/// It holds. A message tells the case.
pub(crate) fn assert_in<C: Debug + Drop>(rt: &impl Abort, case: C, holds: bool) {
    assert!(rt; holds, "{case:?}");
}
