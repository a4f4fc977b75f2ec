// Theory only: what comes of trying one code in a configuration. There is no function here.
#![tactic(auto)]
