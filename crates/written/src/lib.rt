// No code: how a tree is written stands in specs/, and that it is read back in proofs/.
#![tactic(auto)]
