// No code: document 02, No. 14, carried over to departure boards (No. 9), which No. 14 does not ask for. After an edit inside one service's block the departures of every
// other service are on the board as before, and after bit field numbers were changed one-to-one every board is the same (specs/Boards.antt, proofs/Boards.antt).
#![tactic(auto)]
