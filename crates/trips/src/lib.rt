// No code: what is promised of the reader, the check and the writer together stands in specs/, and its proof in proofs/.
#![tactic(auto)]
