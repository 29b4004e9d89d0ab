// That calls answer as before there was version 3, and charts without spare locations in every version too; in specs/ and proofs/.
#![tactic(auto)]
