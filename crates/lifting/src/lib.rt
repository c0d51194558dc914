// The definitions that every promise of this repository cites; all of them stand in specs/.
#![tactic(auto)]
