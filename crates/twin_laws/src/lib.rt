// What twins come to: in runs, in the board numbers, and against the results without them; in specs/ and proofs/.
#![tactic(auto)]
