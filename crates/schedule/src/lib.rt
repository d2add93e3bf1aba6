// What a legal schedule is: specs/. That what passes is in time: proofs/. There is no code.
#![tactic(auto)]
