// No code: functions on lists in specs/, laws of tests and lists in proofs/.
#![tactic(auto)]
