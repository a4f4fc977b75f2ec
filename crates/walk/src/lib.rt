// Theory only: the search theorem over any machine. There is no function here.
#![tactic(auto)]
