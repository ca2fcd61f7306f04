// The journal, which is document 01's trial book; the spelling of sheets; the claim about whole runs. There is no function here: see
// specs/.
#![tactic(auto)]
