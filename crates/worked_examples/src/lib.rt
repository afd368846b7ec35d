// The worked examples P1 to P12 of document 01, computed from the definitions: a table in specs/, one statement in proofs/.
#![tactic(auto)]
