// What is proved of the whole: proofs/Results.antt states it and cites each theorem, specs/Starred.antt has the cases
// that the customer stars. There is no function here.
#![tactic(auto)]
