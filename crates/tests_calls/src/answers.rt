//! How the tests compare what was found with what was wanted. All is passed by value: in a proof a
//! borrow stands in every step until it ends.
use std::fmt::Debug;
use std::process::Abort;

/// Fails the test unless the two are equal; `place` says where in the test that is.
pub(crate) fn same<T: Copy + PartialEq + Debug>(
    rt: &impl Abort,
    place: impl Copy + Debug,
    found: T,
    wanted: T,
) {
    assert_eq!(rt; found, wanted, "{place:?}");
}

/// Fails the test unless what was found is the wanted answer, or this want of memory.
pub(crate) fn same_or_starved<T: Copy + PartialEq + Debug, E: Copy + PartialEq + Debug>(
    rt: &impl Abort,
    place: impl Copy + Debug,
    found: Result<T, E>,
    wanted: T,
    starved: E,
) {
    let wanted = match found {
        Ok(_) => Ok(wanted),
        Err(_) => Err(starved),
    };
    same(rt, place, found, wanted);
}

/// Fails the test unless that holds which `claim` says.
pub(crate) fn holds(rt: &impl Abort, claim: &str, answer: bool) {
    assert!(rt; answer, "{claim}");
}
