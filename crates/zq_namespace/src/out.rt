//! What an exit lets out.

/// What an exit lets out of something that is handed.
#[derive(Debug, Drop)]
pub enum Out<T> {
    /// What was handed, as it is. It is not copied.
    Same,
    /// Something else in its place.
    Other(T),
    /// Nothing.
    Nothing,
}
