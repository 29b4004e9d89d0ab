// That what the writer wrote is read again, and what the reader read is written again, stands in specs/ and proofs/.
#![tactic(auto)]
