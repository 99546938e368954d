// Orders of n things: closing a relation, its circles, the bounds of sets of things, and how two things
// compare.
//
// Things are numbered from 1. `marks` holds a relation among up to 32 things
// as an array of arrays by value, and `rows` one among up to 128 as rows of role sets in a slice.
// `bounds` takes sets of up to 32 things as numbers, and `compare` two things by the marks between them.
#![tactic(auto)]

pub mod bounds;
mod closing;
pub mod compare;
pub mod marks;
pub mod rows;
