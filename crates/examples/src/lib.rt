// No code: the checked examples of document 01, run through the definitions. specs/Rows.antt has the rows marked P, proved together in proofs/Rows.antt;
// specs/Trial.antt the trial week, proofs/Trial.antt its answers and that demand 3 holds of it.
#![tactic(auto)]
