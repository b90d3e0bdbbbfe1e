// What a connection answers for an accepted delivery (document 02, No. 12): no code, the theorems only.
#![tactic(auto)]
