// The smallest symbol of a text: the costs, the greedy writing and the theorem that it is `Best`. Definitions and proofs, no code.

#![tactic(auto)]
