// The normal form of a run sheet, as definitions and theorems: specs/ has them. No code is here.
#![tactic(auto)]
