// Residues modulo a prime: definitions and laws only, in specs/.
#![tactic(auto)]
