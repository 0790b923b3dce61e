//! The nodes of the keys on which routers of a region have an entry: a row for each region, in the order of the texts. No text is copied.
ghost use Rattle.std.specs.Prelude.{◌≡◌, ◌<◌, ◌≤◌, true, false, [], ◌∷◌, ◌==◌, length, slice_index, IfErr, IfOk, OnErr, OnOk};
ghost use Rattle.std.specs.List.{All, insert, remove};
ghost use Rattle.std.specs.List.Sorted.{IsStrictlySortedBy};
ghost use Rattle.std.specs.Map.{set_value};
ghost use Rattle.std.specs.BTreeMap.{is_at, insert_entry};
ghost use Rattle.std.specs.Ordering.{is_eq, is_lt, nat_cmp};
ghost use Rattle.zq_names.specs.Border.{IsBorder};
ghost use Rattle.zq_names.specs.Names.{entry_at};
ghost use Rattle.zq_names.specs.Texts.{text_cmp};
ghost use Rattle.zq_tables.specs.Holding.{GoesTo, IsNode, StandsAt, node_texts};
ghost use Rattle.zq_tables.specs.Naming.{row_at, with_row};

use crate::by_node::seat_in;
use std::alloc::Global;
use std::collections::BTreeMap;
use zq_key::memory::OutOfMemory;
use zq_names::{Names, ResourceId, Tree};

// The regions where routers have an entry, by index, each with the nodes of the entries' keys.
pub(crate) type EntryNodes = BTreeMap<usize, Tree>;

// Whether the text of a node comes before the key.
fn is_before(names: &Names, node: usize, key: &str) -> bool
    requires { IsNode names.now node }
    ensures { result ≡ is_lt (text_cmp (entry_at names.now node).text key.now) }
{
    names.expr(ResourceId(node as u64)).cmp(key).is_lt()
}

// The place in a row of the first text that does not come before the key.
fn place_of(names: &Names, row: &Tree, key: &str) -> usize
    requires { All (IsNode names.now) row.now }
    ensures { IsBorder (λ n. is_lt (text_cmp (entry_at names.now n).text key.now) ≡ true) (λ n. is_lt (text_cmp (entry_at names.now n).text key.now) ≡ false) row.now result }
{
    row.partition_point(|node| is_before(names, node, key))
}

// Whether the text of the node at a place is the key.
fn is_key_at(names: &Names, row: &Tree, at: usize, key: &str) -> bool
    requires live { All (IsNode names.now) row.now }
    requires in_range { at < length row.now }
    ensures { result ≡ is_eq (text_cmp (entry_at names.now (slice_index row.now at)).text key.now) }
{
    names.expr(ResourceId(row.get(at) as u64)).cmp(key).is_eq()
}

// The place of the key in a row, or where it would go.
fn find_in(names: &Names, row: &Tree, key: &str) -> Result<usize, usize>
    requires live { All (IsNode names.now) row.now }
    requires rise { IsStrictlySortedBy text_cmp (node_texts names.now row.now) }
    ensures found { IfOk result (StandsAt (node_texts names.now row.now) key.now) }
    ensures absent { IfErr result (GoesTo (node_texts names.now row.now) key.now) }
{
    let at = place_of(names, row, key);
    if at >= row.len() {
        return Err(at);
    }
    if is_key_at(names, row, at, key) {
        return Ok(at);
    }
    Err(at)
}

// The place of the key in the region's row, or where it would go.
pub(crate) fn find(
    rows: &EntryNodes,
    names: &Names,
    region: usize,
    key: &str,
) -> Result<usize, usize>
    requires live { All (IsNode names.now) (row_at region rows.now.entries) }
    requires rise { IsStrictlySortedBy text_cmp (node_texts names.now (row_at region rows.now.entries)) }
    ensures found { IfOk result (StandsAt (node_texts names.now (row_at region rows.now.entries)) key.now) }
    ensures absent { IfErr result (GoesTo (node_texts names.now (row_at region rows.now.entries)) key.now) }
{
    match rows.get(&region) {
        Some(row) => find_in(names, row, key),
        None => Err(0),
    }
}

// A node comes to a place in a row.
fn put_in(alloc: Global, row: &mut Tree, at: usize, node: ResourceId) -> Result<(), OutOfMemory>
    requires { at ≤ length row.old }
    ensures ok { OnOk result (row.new ≡ insert row.old at node.0) }
    ensures err { OnErr result (row.new ≡ row.old) }
{
    let seat = seat_in(row, alloc)?;
    row.insert(at, node.0 as usize, seat);
    Ok(())
}

// A region without a row has one of a node.
fn put_first(
    alloc: Global,
    rows: &mut EntryNodes,
    region: usize,
    node: ResourceId,
) -> Result<(), OutOfMemory>
    ensures ok { OnOk result (rows.new.entries ≡ insert_entry nat_cmp rows.old.entries region (node.0 ∷ [])) }
    ensures err { OnErr result (rows.new.entries ≡ rows.old.entries) }
{
    let mut row = Tree::new();
    put_in(alloc, &mut row, 0, node)?;
    match rows.insert(region, row) {
        Ok(_) => Ok(()),
        Err(_) => Err(OutOfMemory),
    }
}

// A node comes to a place in the region's row.
pub(crate) fn put(
    alloc: Global,
    rows: &mut EntryNodes,
    region: usize,
    at: usize,
    node: ResourceId,
) -> Result<(), OutOfMemory>
    requires { at ≤ length (row_at region rows.old.entries) }
    ensures ok { OnOk result (rows.new.entries ≡ with_row region (insert (row_at region rows.old.entries) at node.0) rows.old.entries) }
    ensures err { OnErr result (rows.new.entries ≡ rows.old.entries) }
{
    // the regions stand in order, so that one with a row stays at its place
    let _regions = rows.len();
    if !rows.contains_key(&region) {
        return put_first(alloc, rows, region, node);
    }
    match rows.get_mut(&region) {
        Some(row) => put_in(alloc, row, at, node),
        None => unreachable!(),
    }
}

// The node at a place leaves the region's row, which stays even where no other is left.
fn take_from(rows: &mut EntryNodes, region: usize, at: usize) -> usize
    requires { at < length (row_at region rows.old.entries) }
    ensures node { result ≡ slice_index (row_at region rows.old.entries) at }
    ensures rows { rows.new.entries ≡ set_value (is_at (nat_cmp region)) rows.old.entries (remove (row_at region rows.old.entries) at) }
{
    match rows.get_mut(&region) {
        Some(row) => row.remove(at),
        None => unreachable!(),
    }
}

// Whether nothing is in the region's row.
fn is_bare(rows: &EntryNodes, region: usize) -> bool
    ensures { result ≡ (length (row_at region rows.now.entries) == 0) }
{
    match rows.get(&region) {
        Some(row) => row.is_empty(),
        None => true,
    }
}

// The node at a place leaves the region's row, and with the last one the row goes.
pub(crate) fn take(rows: &mut EntryNodes, region: usize, at: usize) -> ResourceId
    requires { at < length (row_at region rows.old.entries) }
    ensures node { result.0 ≡ slice_index (row_at region rows.old.entries) at }
    ensures rows { rows.new.entries ≡ with_row region (remove (row_at region rows.old.entries) at) rows.old.entries }
{
    // the regions stand in order, so that one with a row stays at its place
    let _regions = rows.len();
    let node = take_from(rows, region, at);
    if is_bare(rows, region) {
        let _ = rows.remove(&region);
    }
    ResourceId(node as u64)
}
