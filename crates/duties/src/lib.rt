//! Duties: the tests that a text or a value has to pass, in their order, each with the fault that its failing gives.
//!
//! This crate has definitions and their laws alone. A reader's meaning is one list of duties: the first that isn't
//! met is the refusal, and where all are met there is a value (`specs/Duties.antt`). `proofs/Orders.antt` has the
//! steps through such a list: what a met duty and one that isn't met in front of it make of the whole, what a `?` hands
//! on, one more duty of many, and what is known where all are met.
#![tactic(auto)]
