// Grammars as data, what they derive and the reader that they give: definitions in specs/, theorems in proofs/, no code.
#![tactic(auto)]
