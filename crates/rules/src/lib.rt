// Who keeps the rules, by a log and outcomes (document 02, request 3), as definitions, in specs/, with what is proved of them: specs/Theorems.antt has the
// statements. No code is here; crate checker finds out.
#![tactic(auto)]
