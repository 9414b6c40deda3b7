// Links between the relationships that begin at one node, from the last one to the first.
ghost use Rattle.std.specs.Prelude.{◌≡◌, ℕ, ◌-◌, ◌++◌, ◌∷◌, [], ◌<◌, ◌≤◌, ◌^◌, length, map, filter, replicate, slice_set, Some, None, IfOk, OnOk};
ghost use Rattle.graph_model.specs.declared.graph.Rel.{Rel};
ghost use Rattle.store_tables.specs.Slots.{IsNumbered, living, slot_at};
ghost use Rattle.store_tables.specs.Links.{rel_id, begins_at, BeginsByLinks, IsChained, IsLinkedUpTo, before_at, latest_at};

use crate::slot::Slot;
use crate::slots::live_at;
use crate::table::Table;
use graph_model::{List, Mem, Rel, TryClone};
use std::alloc::Global;

/// What stays of a relationship for good: the node at which it began, where it ever lived here, and the relationship
/// before it that began there.
#[derive(Clone, Copy)]
pub struct Link {
    source: Option<u32>,
    before: Option<u32>,
}

impl TryClone for Link {
    fn try_clone(&self) -> Result<Link, Mem> {
        Ok(*self)
    }
}

/// The last relationship that began at a node.
#[derive(Clone, Copy)]
pub struct Latest {
    rel: Option<u32>,
}

impl TryClone for Latest {
    fn try_clone(&self) -> Result<Latest, Mem> {
        Ok(*self)
    }
}

/// The links of all relationships that were ever given, and the last relationship of each node that was ever given.
#[derive(Drop)]
pub struct Links {
    pub rels: Table<Link>,
    pub nodes: Table<Latest>,
}

impl TryClone for Links {
    fn try_clone(&self) -> Result<Links, Mem> {
        Ok(Links {
            rels: self.rels.try_clone()?,
            nodes: self.nodes.try_clone()?,
        })
    }
}

/// The last relationship that began at a node.
fn last_of(latest: &Table<Latest>, node: u32) -> Option<u32>
    ensures { result ≡ latest_at latest.now node }
{
    match latest.get(node as usize) {
        Some(last) => last.rel,
        None => None,
    }
}

/// The relationship before one that began at the same node.
fn before_of(links: &Table<Link>, id: u32) -> Option<u32>
    ensures { result ≡ before_at links.now id }
{
    match links.get(id as usize) {
        Some(link) => link.before,
        None => None,
    }
}

/// Puts nodes at which nothing began behind the others, until there are `len`.
fn add_nodes(latest: &mut Table<Latest>, alloc: Global, len: usize) -> Result<(), Mem>
    requires { length latest.old ≤ len }
    ensures { OnOk result (latest.new ≡ latest.old ++ replicate (len - length latest.old) (record { rel = None })) }
{
    for _node in latest.len()..len {
        latest.push(alloc, Latest { rel: None })?;
    }
    Ok(())
}

/// Links one more relationship, which begins at a node.
fn add_rel(
    links: &mut Table<Link>,
    latest: &mut Table<Latest>,
    alloc: Global,
    source: u32,
) -> Result<(), Mem>
    requires within { source < length latest.old }
    requires few { length links.old < 2 ^ 32 }
    ensures links { OnOk result (links.new ≡ links.old ++ record { source = Some source; before = latest_at latest.old source } ∷ []) }
    ensures latest { OnOk result (latest.new ≡ slice_set latest.old source (record { rel = Some (length links.old) })) }
{
    let id = links.len() as u32;
    let before = last_of(latest, source);
    links.push(
        alloc,
        Link {
            source: Some(source),
            before,
        },
    )?;
    latest.set(alloc, source as usize, Latest { rel: Some(id) })
}

/// Links the relationships that have no link yet. They begin at nodes that were added.
fn add_rels(
    links: &mut Table<Link>,
    latest: &mut Table<Latest>,
    alloc: Global,
    rels: &Table<Slot<Rel>>,
) -> Result<(), Mem>
    requires sources { (id : ℕ) (rel : Rel) → slot_at rels.now id ≡ Some rel → rel.source < length latest.old }
    requires begun { BeginsByLinks rels.now links.old }
    requires chained { IsChained links.old latest.old }
    requires fewer { length links.old ≤ length rels.now }
    requires few { length rels.now ≤ 2 ^ 32 }
    ensures { OnOk result (IsLinkedUpTo rels.now links.new latest.new (length rels.now) (length latest.old)) }
{
    for row in links.len()..rels.len() {
        match live_at(rels, row) {
            Some(rel) => add_rel(links, latest, alloc, rel.source)?,
            None => links.push(
                alloc,
                Link {
                    source: None,
                    before: None,
                },
            )?,
        }
    }
    Ok(())
}

impl Links {
    /// No links.
    pub fn new(alloc: Global) -> Result<Links, Mem>
        ensures rels { IfOk result (λ made. made.rels ≡ []) }
        ensures nodes { IfOk result (λ made. made.nodes ≡ []) }
    {
        Ok(Links {
            rels: Table::new(alloc)?,
            nodes: Table::new(alloc)?,
        })
    }

    /// The links, extended to `nodes` nodes and to all relationships, which begin at these nodes.
    pub fn extended(
        &self,
        alloc: Global,
        nodes: usize,
        rels: &Table<Slot<Rel>>,
    ) -> Result<Links, Mem>
        requires sources { (id : ℕ) (rel : Rel) → slot_at rels.now id ≡ Some rel → rel.source < nodes }
        requires begun { BeginsByLinks rels.now self.now.rels }
        requires chained { IsChained self.now.rels self.now.nodes }
        requires fewer { length self.now.rels ≤ length rels.now }
        requires fewer_nodes { length self.now.nodes ≤ nodes }
        requires few { length rels.now ≤ 2 ^ 32 }
        ensures { IfOk result (λ made. IsLinkedUpTo rels.now made.rels made.nodes (length rels.now) nodes) }
    {
        let mut links = self.rels.try_clone()?;
        let mut latest = self.nodes.try_clone()?;
        add_nodes(&mut latest, alloc, nodes)?;
        add_rels(&mut links, &mut latest, alloc, rels)?;
        Ok(Links {
            rels: links,
            nodes: latest,
        })
    }

    /// The ids of the relationships that begin at a node, ascending. It looks at those alone that ever began there.
    pub fn ids_from(
        &self,
        alloc: Global,
        rels: &Table<Slot<Rel>>,
        source: u32,
    ) -> Result<List<u32>, Mem>
        requires numbered { IsNumbered rel_id 0 rels.now }
        requires chained { IsChained self.now.rels self.now.nodes }
        requires begun { BeginsByLinks rels.now self.now.rels }
        requires rows { length self.now.rels ≡ length rels.now }
        ensures { IfOk result (λ ids. ids ≡ map rel_id (filter (begins_at source) (living rels.now))) }
    {
        let mut ids = Vec::new(alloc);
        let mut next = last_of(&self.nodes, source);
        while let Some(id) = next {
            match live_at(rels, id as usize) {
                Some(rel) => ids.push(rel.id)?,
                None => {}
            }
            next = before_of(&self.rels, id);
        }
        ids.reverse();
        Ok(List::from_vec(ids))
    }
}
