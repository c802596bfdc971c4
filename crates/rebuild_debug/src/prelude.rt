//! What `rebuild_debug` passes on of the crates below it.

pub use rebuild_object::prelude::{Arranged, Contents, RangedPlan, arrange_rebuilt, plan_arranged};
