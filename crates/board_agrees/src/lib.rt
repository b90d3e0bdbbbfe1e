// No code: a board by a table's own index is the board of the table (proofs/Own).
#![tactic(auto)]
