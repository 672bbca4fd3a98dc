// No code: the laws behind winner, falls and watershed, in proofs/.
#![tactic(auto)]
