//! How the tests compare what was found with what was wanted. All is passed by value: in a proof a
//! borrow stands in every step until it ends.
use std::fmt::Debug;
use std::process::Abort;

/// Fails the test unless the two are equal; `place` says where in the test that is.
pub(crate) fn same<T: Copy + PartialEq + Debug>(
    rt: &impl Abort,
    place: impl Copy + Debug,
    found: T,
    wanted: T,
) {
    assert_eq!(rt; found, wanted, "{place:?}");
}

/// Fails the test unless that holds which `claim` says.
pub(crate) fn holds(rt: &impl Abort, claim: &str, answer: bool) {
    assert!(rt; answer, "{claim}");
}
