//! Tests of the search over every order: a counter that goes up by one or by two, up to three.
#![tactic(auto)]

mod steps;
