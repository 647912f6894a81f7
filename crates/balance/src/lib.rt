// Demand 3: calls, answers, the book, and the theorem over whole lists of calls. There is no function here.
#![tactic(auto)]
