// Runs of the switch: what is promised of every list of calls is in specs/, and its proof in proofs/.
#![tactic(auto)]
