// The causes of refusal, and the verdicts made of them.
#![tactic(auto)]

pub mod cause;
