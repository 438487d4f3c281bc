//! Laws of lists and numbers that several crates want.
//!
//! This crate has lemmas, and of definitions only the greatest number that passes a test (`specs/Greatest.antt`, with
//! its laws in `proofs/Greatest.antt`). `proofs/Ranges.antt` has what a map, a filter or a text over the numbers below a count
//! gains by one number more; `proofs/Left.antt` what is left of a list from a place on; `proofs/Rising.antt` the order of
//! the places of a rising list, and what keeps it rising; `proofs/Digits.antt` the bound of a number that grows by a
//! digit; `proofs/Results.antt` what a `?` hands on.
#![tactic(auto)]
