// No code: the definition of the language stands in specs/, and what is proved of it in proofs/.
#![tactic(auto)]
