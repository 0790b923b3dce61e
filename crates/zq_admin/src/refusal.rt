//! Why a view gave no answer, or not a whole one.

use zq_machine::call::StepList;

/// Why a view gave no answer, or not a whole one.
#[derive(Debug, Drop)]
pub enum AdminRefusal {
    /// The configuration has no Local region.
    NoLocal,
    /// No number is left for the view's own face.
    NoFreeId,
    /// No memory was found, and nothing changed.
    OutOfMemory,
    /// No memory was found after the call; the own face has ended its answer.
    Cut {
        /// Every step that was made, the final's last.
        steps: StepList,
    },
}
