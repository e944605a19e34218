// What a question asks for, and why a best-first search finds it: definitions and laws alone; the code is in `nearest`.
#![tactic(auto)]
