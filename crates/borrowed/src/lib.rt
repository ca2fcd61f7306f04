// Laws for the proofs by hand of functions over a lent struct. There is no function here: see proofs/.
#![tactic(auto)]
