// Sums, tests, counts and searches over the numbers below a bound: definitions and lemmas only, in specs/ and proofs/.
#![tactic(auto)]
