//! What several kernels need: scans, copies, and tables of kept lanes.

pub(crate) mod compress;
pub mod copy;
pub(crate) mod lookup;
pub mod scan;
pub(crate) mod sum;
pub mod units;
pub mod width;
