// Lists of feeds on a session: the plain machine, demands 2 and 3, counter blocks, and which calls are accepted.
// Theorems over the contracts of `modes`, in specs/ and proofs/, and no code.
#![tactic(auto)]
