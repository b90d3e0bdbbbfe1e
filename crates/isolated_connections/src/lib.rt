// No code: document 02, No. 14, carried over to connections (No. 12), which No. 14 does not ask for. A connection of which no part is of the edited service is
// answered alike after the edit, and every connection is after bit field numbers were changed one-to-one (specs/Connections.antt, proofs/Connections.antt).
#![tactic(auto)]
