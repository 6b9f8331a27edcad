//! Parser combinators over tokens, and three laws of them: the result depends only on the tokens consumed and
//! one token of lookahead; every consumed prefix extends to a valid input; a larger limit changes only results
//! that hit the limit.
//!
//! There is no code here: `specs` has the combinators, `proofs` the laws.
#![tactic(auto)]
