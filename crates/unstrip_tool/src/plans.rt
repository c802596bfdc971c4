//! The plans of the two halves of an image.

use rebuild_debug::prelude::RangedPlan;

/// Where the bytes of the two halves of an image are, and where their parts are.
#[derive(Drop)]
pub struct SplitPlans {
    /// The plan of what is kept.
    pub stripped: RangedPlan,
    /// The plan of the debug half.
    pub debug: RangedPlan,
}
