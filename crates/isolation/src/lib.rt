// No code: document 02, No. 14, as two theorems over the definitions of the timetable. One operator's edit (specs/Edit.antt, proofs/Isolated.antt), and bit
// field numbers changed one-to-one (specs/Rename.antt, proofs/Renamed.antt).
#![tactic(auto)]
