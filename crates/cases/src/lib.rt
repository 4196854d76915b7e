// The bench cases that are proved. The table stands in specs/, its theorem in proofs/; there is no code: an outcome
// goes through the very definitions that the contracts of the entries cite, so what the table says holds of them.

#![tactic(auto)]
