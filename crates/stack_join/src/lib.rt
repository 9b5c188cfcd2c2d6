//! Pieces of neighbouring token lists are joined: the left list's last piece is opened again, and the right list's pieces are put
//! on it as long as its states agree on their first tokens.
#![tactic(auto)]

mod absorbing;
mod carrying;
mod entering;
mod joining;
mod landing;
mod looking;
mod parts;
mod pushing;
mod putting;

pub use joining::join;
pub use piece_lists::Pieces;
