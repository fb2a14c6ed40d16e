// What is printed for all the input: definitions and laws alone.
#![tactic(auto)]
