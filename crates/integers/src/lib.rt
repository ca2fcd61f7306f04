// Laws on whole numbers that the other crates cite. There is no function here: see specs/.
#![tactic(auto)]
