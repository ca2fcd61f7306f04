// The change of the house default from M to R: what a sheet or a held search with method 0 was, and what it becomes. There is no function
// here: see specs/.
#![tactic(auto)]
