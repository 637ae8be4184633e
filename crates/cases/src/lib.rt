// Document 01's worked runs, A to H, and further sheets: the tables are in specs/, the proof in proofs/.
#![tactic(auto)]
