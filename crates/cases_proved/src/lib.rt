// The cases that document 01 marks P and gray values of document 02, as one theorem. No code.
#![tactic(auto)]
