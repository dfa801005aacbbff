// What a head answers in a run, as a record: what is promised of it is in specs/, and its proof in proofs/.
#![tactic(auto)]
