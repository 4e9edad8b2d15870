// Theory only: all of it stands in specs/.
#![tactic(auto)]
