// No code: the laws behind floods, labels and minima, in proofs/.
#![tactic(auto)]
