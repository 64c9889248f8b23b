// The functions of the library `squeeze` under their C names, in its modules: each
// export calls the function of its name, answers 0 or the refusal's number, and states
// the clauses again of that number.
#![tactic(auto)]

pub mod lists;
pub mod tiles;
pub mod whole_runs;
