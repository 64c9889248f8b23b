// What the C functions do (`squeeze_c` exports them), a module for each family: whole
// runs over a record, tiles, and channel lists. Total: every question that concerns
// the call in its order, slice lengths last; after a refusal every slice is as it was.
#![tactic(auto)]

pub mod lists;
pub mod tiles;
pub mod whole_runs;
