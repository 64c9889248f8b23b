// Whole runs and their marks, as definitions in specs/ and the claims on them in
// proofs/: over any list of steps every picture has exactly one pyramid, and no
// mark says exactly that all samples read or made are plain. There is no code here.
#![tactic(auto)]
