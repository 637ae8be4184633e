// The two_threshold broadcast as definitions, in specs/, with what is proved of them: specs/Theorems.antt has the statements. No code is
// here; the crates above run what is defined here.
#![tactic(auto)]
