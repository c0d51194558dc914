// The lines of kept blocks as bytes; all of it stands in specs/.
#![tactic(auto)]
