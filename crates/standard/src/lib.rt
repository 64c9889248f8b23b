// The standard's Squeeze (ISO/IEC 18181-1) over whole numbers without a bound,
// as definitions in specs/, and in proofs/ the theorems that on the domain of
// demand 2 document 01's arithmetic gives the same. There is no code to run.
#![tactic(auto)]
