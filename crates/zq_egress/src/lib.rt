//! Whom a call hands what: offers are selected, messages written for their receivers, and all goes out through the exits of faces before the last step of the call that may fail.
//!
//! - `face_mux`: a face's gate, the keys that it may not ask for and its exit
//! - `exits`: what is known of a message that is through
//! - `through`: messages go through the gates of their faces, and back
//! - `face_muxes`: the gates of all faces
//! - `read`: what is asked of an expression that was read
//! - `select`: which offers a request is handed to
//! - `write`: the messages, written for their receivers
//! - `tell`: declarations to faces, marked where they answer an interest, and the numbers of keys that they need
//! - `opening`: a face that joins the others, and what it is told
//! - `neighbours`: what is told along trees and to neighbours, with room for what it leaves of them
//! - `holding`: the node of a key is held, and what comes of it is told
//! - `answers`: interests that are answered, and what their ends tell and leave of those who asked
//! - `without`: which faces want numbers for keys, once an interest has ended
//! - `gone`: messages of a call that is no request go through the gates
//! - `last`: they do, and then the last step is made
//! - `letting`: requests of which nothing leaves are released
#![tactic(auto)]

pub mod answers;
pub mod exits;
pub mod face_mux;
pub mod face_muxes;
mod gone;
pub mod holding;
mod last;
mod letting;
pub mod neighbours;
pub mod opening;
pub mod read;
pub mod select;
pub mod tell;
mod through;
pub mod without;
pub mod write;

pub use exits::Exit;
pub use face_mux::{FaceMux, is_sound};
pub use face_muxes::FaceMuxes;
pub use gone::let_told_out;
pub use last::{ask_told, close_told, enter_told, put_entry_told, register_told, withdraw_told};
pub use letting::{let_go_unsent, none_leaves};
