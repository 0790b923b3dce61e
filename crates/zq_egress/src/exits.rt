//! What is known of a message that is through the gate of its face.

use std::marker::Model;
use zq_machine::handed::Leaves;
use zq_namespace::Kept;

/// What leaves of a message, and how what it gives was kept before, so that it can be undone.
#[derive(Debug, Drop)]
pub struct Exit {
    /// What leaves of it.
    pub leaves: Leaves,
    /// How the number or the id that it gives was kept; `Already` where nothing was to be kept.
    pub kept: Kept,
}
