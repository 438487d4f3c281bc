//! Shots of a system's flux: settling a ledger on one thread, and what actors do in any order.
//!
//! [`settle`] shoots the first patch of the greatest residual, again and again while that residual reaches the
//! threshold; [`serial`] does so from nothing taken. What a shot is stands in `specs/Shots.antt`, and which ledger all
//! of them lead to in `specs/Settling.antt`.
//!
//! A [`World`] has a word for each patch, a desk and some actors, each with an account and a [`Hand`]. Its [`Event`]s
//! come in any order: an actor is hired, takes the word of a patch, gives what it has in hand, or is retired. What each
//! does stands in `specs/World.antt`, what an account shows in `specs/Views.antt`, what holds of all accounts at every
//! moment in `specs/Accounts.antt`, and what follows from it in `specs/Conserved.antt`: no flux is lost.
#![tactic(auto)]

mod accounts;
mod batches;
mod brightest;
mod events;
mod hands;
mod parts;
mod roles;
mod settling;
mod shots;
mod views;
mod worlds;

pub use accounts::{Account, DeskAccount, add_amounts};
pub use batches::BatchHand;
pub use events::{Event, Stepped};
pub use hands::Hand;
pub use roles::Role;
pub use settling::{Settler, serial, settle};
pub use views::View;
pub use worlds::World;
