//! What an expression says.
use zq_key::text::Text;

/// What an expression of a face says: its full text, or nothing where it is empty, or that its
/// number stands for nothing there.
#[derive(Debug, Drop)]
pub enum Resolved {
    /// Its number stands for nothing there.
    Unscoped,
    /// It has neither a number nor a suffix.
    Empty,
    /// Its whole text: that of its number, and behind it the suffix.
    Full(Text),
}
