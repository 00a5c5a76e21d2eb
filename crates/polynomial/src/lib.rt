// Polynomials over a commutative ring: definitions and laws only, in specs/.
#![tactic(auto)]
