//! A gateway whose faces are an asker and storages, all of them in Local: what it selects for a request of
//! the asker, said from the storages alone, and how a run of a request, of replies and of their ends goes.
//!
//! - `laws`: that a request is handed to the storages that its target picks, and that a storage joins the others
#![tactic(auto)]

pub mod laws;
