//! Decimal numbers as texts write them, and whole-number arithmetic in 128 bits.
//!
//! [`Decimal::read`] reads a text as a number and keeps it exactly: a sign, a whole number and a power of ten. A limit
//! is tested on that exact number ([`Decimal::is_at_most`]), and a value is cut from it ([`Decimal::to_fixed`],
//! [`Decimal::to_whole`]). [`mul_div_floor`], [`mul_div_ceil`] and [`isqrt`] are quotients and roots that are exact or
//! none. No call takes memory. The meanings stand in `specs/Decimal.antt`, `specs/Scaled.antt` and
//! `specs/Quotients.antt`.
#![tactic(auto)]

mod decimal;
mod digits;
mod powers;
mod quotients;
mod scaled;

pub use decimal::{Decimal, NumFault};
pub use quotients::{isqrt, mul_div_ceil, mul_div_floor};
