// A text that passes refusals 1 to 7 fits the function slice; the law stands in specs/.
#![tactic(auto)]
