//! Where the reading of a sheet stands. The main type is `State`.

use crate::counts::Counts;
use certificate::{Body, State as Within};

/// What the next line of a sheet has to be. The entries are kept as those of a certificate.
#[derive(Drop)]
pub(crate) enum State {
    First,
    Versioned,
    Listing(Within),
    Between(Counts, Body),
    Refuting(Counts, Body),
    Proving(Counts, Within),
    Showing(Counts, Body, Within),
    Done(Counts, Body),
}
