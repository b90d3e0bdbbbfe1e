// Theorems on FPLAN written from a table (document 02, No. 11); there is no code here.
#![tactic(auto)]
