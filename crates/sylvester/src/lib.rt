// Sylvester's matrix and the laws of its determinant: definitions and laws only, in specs/.
#![tactic(auto)]
