// The outcome of a trial sheet, as definitions. There is no function here: see specs/.
#![tactic(auto)]
