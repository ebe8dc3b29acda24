//! Which images the checker accepts, and which name space an accepted image means: the definitions of `specs/`, which the contracts
//! of the checker and of the program cite.
#![tactic(auto)]
