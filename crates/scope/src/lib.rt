// What the kernel computes and which number each call answers: definitions, laws and figures, in specs/.
#![tactic(auto)]
