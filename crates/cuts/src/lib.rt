// A squeeze cut into tiles (document 01, "Whole runs"), as definitions in
// specs/: strips, tiles with their neighbour lines, and a whole list of tile
// calls on the tiles' slices, each by the tile call's own contract (crate
// tile); the claim of demand 3 over it, what the calls tell together of the
// plain range, and document 01's own case. In proofs/ their theorems. There is
// no code here.
#![tactic(auto)]
