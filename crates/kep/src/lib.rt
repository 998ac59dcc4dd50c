// The problem: the restricted kidney exchange problem, (Lc, Lp)-KEP, of Xiao and Wang. No code: specs/ has the definitions, proofs/ the laws about them.
#![tactic(auto)]
