// Theorems that span layers: on texts and messages over any dictionary (proofs/Whole.antt), from a message to its symbol and back (There), the starred
// samples (Starred), and on dictionaries that grow (specs/Keeps.antt, proofs/Keeps.antt). There is no code.

#![tactic(auto)]
