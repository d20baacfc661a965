// The model of every list of calls. There is no code here.
#![tactic(auto)]
