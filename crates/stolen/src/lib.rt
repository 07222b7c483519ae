// Ciphertext stealing for CBC (request 03, after RFC 2040) over any two block functions: specs/ says what a message
// becomes, and it has no code.
#![tactic(auto)]
