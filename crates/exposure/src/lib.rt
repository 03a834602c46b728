// What another exposure changes of a fix: nothing. No code.
#![tactic(auto)]
