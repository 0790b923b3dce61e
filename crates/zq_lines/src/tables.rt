//! The words of tables: the gateways of nodes, and trees.
ghost use Rattle.std.specs.Prelude.{◌≡◌, ◌++◌, ◌∷◌, [], ℕ, List, OnOk};
ghost use Rattle.zq_io.specs.Words.{field, list_of, list_word, rest_word};
ghost use Rattle.zq_lines.specs.Tables.{entry_of, entry_word, tree_of, tree_word};

use std::alloc::{AllocError, Global};
use zq_io::show::Shown;
use zq_io::stop::Stop;
use zq_io::words::{Word, cut, list_of, push_text};
use zq_key::items::Items;
use zq_key::message::Zid;
use zq_route::gateways::GatewayEntry;
use zq_strategy::types::Tree;

/// The word of the gateways of one node.
pub struct EntryOf;

impl Word for EntryOf {
    type Value = GatewayEntry;

    ghost of = { entry_of };

    #[tactic(auto, unfolding(crate::specs::Tables::entry_of))]
    fn read(alloc: Global, word: &[u8]) -> Result<GatewayEntry, Stop> {
        let (node, gateways) = cut(b'=', word).ok_or(Stop::Bad)?;
        let node = Zid::read(alloc, node)?;
        let gateways = list_of::<Zid>(alloc, b',', gateways)?;
        Ok(GatewayEntry { node, gateways })
    }
}

/// The word of the gateways of nodes.
pub struct EntriesOf;

impl Word for EntriesOf {
    type Value = Items<GatewayEntry>;

    ghost of = { list_of 59 entry_of };

    fn read(alloc: Global, word: &[u8]) -> Result<Items<GatewayEntry>, Stop> {
        list_of::<EntryOf>(alloc, b';', word)
    }
}

/// The word of a tree.
pub struct TreeOf;

impl Word for TreeOf {
    type Value = Tree;

    ghost of = { tree_of };

    #[tactic(auto, unfolding(crate::specs::Tables::tree_of))]
    fn read(alloc: Global, word: &[u8]) -> Result<Tree, Stop> {
        let (children, directions) = cut(b'/', word).ok_or(Stop::Bad)?;
        let children = list_of::<u32>(alloc, b',', children)?;
        let directions = list_of::<Option<u32>>(alloc, b',', directions)?;
        Ok(Tree {
            children,
            directions,
        })
    }
}

/// The word of trees.
pub struct TreesOf;

impl Word for TreesOf {
    type Value = Items<Tree>;

    ghost of = { list_of 59 tree_of };

    fn read(alloc: Global, word: &[u8]) -> Result<Items<Tree>, Stop> {
        list_of::<TreeOf>(alloc, b';', word)
    }
}

/// An item of a table's list, which is written as a piece of one word.
pub trait Item {
    /// The piece.
    ghost piece: { Self → List ℕ };

    /// Appends the piece.
    fn push(&self, out: &mut Vec<u8>) -> Result<(), AllocError>
        ensures { OnOk result (out.new.items ≡ out.old.items ++ piece self.now) };
}

impl Item for GatewayEntry {
    ghost piece = { entry_word };

    fn push(&self, out: &mut Vec<u8>) -> Result<(), AllocError> {
        self.node.show(out)?;
        push_text(out, "=")?;
        self.gateways.show(out)
    }
}

impl Item for Tree {
    ghost piece = { tree_word };

    fn push(&self, out: &mut Vec<u8>) -> Result<(), AllocError> {
        self.children.show(out)?;
        push_text(out, "/")?;
        self.directions.show(out)
    }
}

/// Writes what follows the first item of a list.
fn push_rest<T: Item>(out: &mut Vec<u8>, items: &[T]) -> Result<(), AllocError>
    ensures { OnOk result (out.new.items ≡ out.old.items ++ rest_word (59 ∷ []) T.piece items.now) }
{
    for item in items {
        push_text(out, ";")?;
        item.push(out)?;
    }
    Ok(())
}

/// Writes a space, and a list joined by semicolons or a dash for the empty one.
pub fn push_items<T: Item>(out: &mut Vec<u8>, items: &[T]) -> Result<(), AllocError>
    ensures { OnOk result (out.new.items ≡ out.old.items ++ field (list_word 59 T.piece items.now)) }
{
    push_text(out, " ")?;
    match items.split_first() {
        Some((first, rest)) => {
            first.push(out)?;
            push_rest(out, rest)
        }
        None => push_text(out, "-"),
    }
}
