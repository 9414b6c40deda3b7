// One named graph, and where its entry stands.
ghost use Rattle.std.specs.Prelude.{◌≡◌, None, Some, position, IfOk, IfErr, OnOk, OnErr, option_copied};
ghost use Rattle.graph_model.specs.Projection.{under};
ghost use Rattle.graph_model.specs.Refusals.{UnlessMem};
ghost use Rattle.user_catalog.specs.Catalog.{is_named, is_behind, wider, widened, refused_wider, refused_found};

use csr_columns::Projection;
use graph_model::{Column, Name, Refusal, Shared, Tag, TryClone};
use std::alloc::Global;

/// A named graph: its version, counted from 1, and its projection, which copies share.
#[derive(Drop)]
pub struct Entry {
    pub version: u32,
    pub graph: Shared<Projection>,
}

/// The place of the entry under a name.
pub(crate) fn place_of(entries: &[(Tag, Entry)], name: &Tag) -> Option<usize>
    ensures { result ≡ position (is_named name.now) entries.now }
{
    entries.iter().position(|entry| entry.0 == *name)
}

/// The place of the first entry behind a name, before which the entry of the name belongs.
pub(crate) fn place_behind(entries: &[(Tag, Entry)], name: &Tag) -> Option<usize>
    ensures { result ≡ position (is_behind name.now) entries.now }
{
    entries.iter().position(|entry| *name < entry.0)
}

/// The entry under a name.
pub(crate) fn entry_under<'a>(entries: &'a [(Tag, Entry)], name: &Tag) -> Option<&'a Entry>
    ensures { option_copied result ≡ under name.now entries.now }
{
    match place_of(entries, name) {
        Some(place) => Some(&entries[place].1),
        None => None,
    }
}

/// An entry with one more column in its graph, under its version.
///
/// # Errors
/// `GraphGone` exactly where the entry has another version, then `PropertyExists` exactly where its graph has the key, or
/// `Mem`.
pub(crate) fn wider(
    alloc: Global,
    entry: &Entry,
    name: &Tag,
    version: u32,
    key: Name,
    column: &Column,
) -> Result<Entry, Refusal>
    ensures ok { IfOk result (λ wide. wide ≡ wider key column.now entry.now) }
    ensures allowed { OnOk result (refused_wider name.now version key entry.now ≡ None) }
    ensures refused { IfErr result (λ why. UnlessMem why (refused_wider name.now version key entry.now ≡ Some why)) }
{
    if entry.version != version {
        return Err(gone(name, version, entry.version));
    }
    match entry.graph.get().with_column(alloc, key, column) {
        Ok(graph) => shared(alloc, version, graph),
        Err(why) => Err(why),
    }
}

/// Adds a column to the graph under a name, which keeps its version.
///
/// # Errors
/// As `wider`, and `GraphGone` with 0 where there is no graph of the name. Then all entries are as they were.
pub(crate) fn widen(
    alloc: Global,
    entries: &mut [(Tag, Entry)],
    name: &Tag,
    version: u32,
    key: Name,
    column: &Column,
) -> Result<(), Refusal>
    ensures ok { OnOk result (entries.new ≡ widened name.now key column.now entries.old) }
    ensures allowed { OnOk result (refused_found name.now version key (under name.now entries.old) ≡ None) }
    ensures refused { IfErr result (λ why. UnlessMem why (refused_found name.now version key (under name.now entries.old) ≡ Some why)) }
    ensures err { OnErr result (entries.new ≡ entries.old) }
{
    let Some(place) = place_of(entries, name) else {
        return Err(gone(name, version, 0));
    };
    match wider(alloc, &entries[place].1, name, version, key, column) {
        Ok(wide) => {
            entries[place].1 = wide;
            Ok(())
        }
        Err(why) => Err(why),
    }
}

// An entry with its graph behind a pointer of its own.
fn shared(alloc: Global, version: u32, graph: Projection) -> Result<Entry, Refusal>
    ensures version { IfOk result (λ entry. entry.version ≡ version) }
    ensures graph { IfOk result (λ entry. entry.graph ≡ graph) }
    ensures refused { IfErr result (λ why. why ≡ Refusal.Mem) }
{
    match Shared::new(alloc, graph) {
        Ok(graph) => Ok(Entry { version, graph }),
        Err(_mem) => Err(Refusal::Mem),
    }
}

// The refusal where a name has another version now, or want of memory.
fn gone(name: &Tag, had: u32, now_: u32) -> Refusal
    ensures { UnlessMem result (result ≡ Refusal.GraphGone name.now had now_) }
{
    match name.try_clone() {
        Ok(graph_name) => Refusal::GraphGone {
            graph_name,
            had,
            now_,
        },
        Err(_mem) => Refusal::Mem,
    }
}
