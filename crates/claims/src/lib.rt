// What a customer asks for. specs/ says what is promised; proofs/Lib lists the theorems about the calls in the order of the demands, and the rows of
// document 01. No code.
#![tactic(auto)]
