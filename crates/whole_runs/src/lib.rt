// No code: the theorems over the definitions of the timetable as a whole. The table of an accepted delivery reads back as what its files say
// (proofs/Back.antt, Accepted.antt), and its files' lines were all read (stated in specs/Text.antt); demand 3 (specs/Promise.antt, and specs/Rows.antt for a
// run's rows); what a walk of any words may answer (proofs/Any.antt); that the promises of the entry points leave no slack (proofs/Slack.antt).
#![tactic(auto)]
