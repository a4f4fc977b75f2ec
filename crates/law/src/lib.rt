// Theory only: the rules of a step on terms written out whole, and that the machine on labels follows them. There is no
// function here.
#![tactic(auto)]
