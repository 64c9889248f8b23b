// The claims together: document 01's table (specs/Table.antt), the demands over
// the definitions that the C functions' contracts cite (specs/Demands.antt), the
// coarse count and long strips of document 02, A.2 and A.8 (specs/Coarse.antt,
// specs/Strips.antt), and the programs that must not get through
// (specs/Wrong.antt); their theorems are in proofs/. There is no code here.
#![tactic(auto)]
