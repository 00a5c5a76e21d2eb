// Commutative rings, finite sums and determinants: definitions and laws only, in specs/.
#![tactic(auto)]
