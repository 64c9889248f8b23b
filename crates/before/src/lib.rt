// Records as they were before strips (document 02, A.8), as definitions in
// specs/, and in proofs/ that bytes without a field of tag 3 are read, judged and
// listed as before and that a list without a strip is written in the bytes of
// before. There is no code here.
#![tactic(auto)]
