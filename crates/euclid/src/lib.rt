// Division of rows and the monic remainder sequence: definitions and laws only, in specs/.
#![tactic(auto)]
