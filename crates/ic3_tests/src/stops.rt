//! Why a test does not come to its end. The main type is `Stop`.

use ic3::ReachEnd;
use proved_entries::ProvingEnd;
use std::alloc::{AllocError, AllocFailed};

/// A test that does not come to its end: an entry is refused, a limit is met, or memory is.
#[derive(Clone, Copy)]
pub(crate) struct Stop;

impl From<AllocError> for Stop {
    fn from(_: AllocError) -> Stop {
        Stop
    }
}

impl<T: Drop> From<AllocFailed<T>> for Stop {
    fn from(_: AllocFailed<T>) -> Stop {
        Stop
    }
}

impl From<ProvingEnd> for Stop {
    fn from(_: ProvingEnd) -> Stop {
        Stop
    }
}

impl From<ReachEnd> for Stop {
    fn from(_: ReachEnd) -> Stop {
        Stop
    }
}
