// What a conversion of stored images makes of prefix rules, and what it keeps: definitions and proofs, and no code.
#![tactic(auto)]
