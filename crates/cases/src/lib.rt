// The scope's cases: the table is in specs/, and its proof in proofs/.
#![tactic(auto)]
