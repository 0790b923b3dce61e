//! The key under which a text is declared to a face.
use zq_key::message::WireExpr;

/// An expression, and the id that has to be declared for it first, if a new one is needed.
#[derive(Debug, Drop)]
pub struct DeclKey {
    /// The expression that says the text to the face.
    pub wire: WireExpr,
    /// Its number, where that is new to the face; else none.
    pub declared: Option<u16>,
}
