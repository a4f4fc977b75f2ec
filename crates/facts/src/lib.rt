// Theory only: the worked facts of the scope document, proved together. There is no function here.
#![tactic(auto)]
