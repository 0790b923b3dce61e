//! What faces ask to hear: who asks for a key, and whether numbers may be declared for keys.
//!
//! - `types`: an interest of a face
//! - `asked`: the interests of one face
//! - `faces`: the interests of all faces, as a map
//! - `shelf`, `places`, `keyed`: where interests are kept, by the texts of their keys
//! - `walk`: the faces of interests whose keys meet a key
//! - `kept`: the interests of all faces, and where they are kept
//! - `interests`: `Interests`, the same as one value
//! - `numbers`: which faces want numbers for keys, also with an interest that is not put yet
#![tactic(auto)]

mod asked;
mod faces;
pub mod interests;
mod kept;
mod keyed;
pub mod numbers;
mod places;
mod shelf;
pub mod types;
mod walk;
