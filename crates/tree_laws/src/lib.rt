// No code: the laws behind union_find, tree and verify, in proofs/.
#![tactic(auto)]
