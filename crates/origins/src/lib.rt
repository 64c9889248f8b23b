// Origins of channels over whole runs (document 02, A.4), as definitions in specs/
// and the claim on them in proofs/: the channels of an origin have together its
// samples, and its averages come first. There is no code here.
#![tactic(auto)]
