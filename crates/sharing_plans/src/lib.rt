// That `fewest` is the smallest number of timers in any plan, and what the floor says, stands in specs/ and proofs/.
#![tactic(auto)]
