// Recipe numbers: the run of a number as one broadcast a bit, as definitions and theorems: specs/ has them. No code is here.
#![tactic(auto)]
