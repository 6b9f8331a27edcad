//! Tables of scripts, with the tree of each or its fault, found by hand, that run through lexer and parser:
//! the tests of both, in a crate of their own so that neither is proved twice.
#![tactic(auto)]

#[cfg(test)]
mod declared;
#[cfg(test)]
mod deep;
#[cfg(test)]
mod fails;
#[cfg(test)]
mod print;
#[cfg(test)]
mod print_words;
#[cfg(test)]
mod reads;
#[cfg(test)]
mod told;
#[cfg(test)]
mod whole;
