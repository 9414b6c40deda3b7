// A store that is changed and asked.
ghost use Rattle.std.specs.Prelude.{IfOk};
ghost use Rattle.graph_model.specs.Change.{IsWellFormedChange};
ghost use Rattle.desk_model.specs.Script.{IsFormedCall};

use crate::answers::text_of;
use crate::projections;
use crate::stop::Stop;
use crate::words::{name, small};
use call_codec::line_call;
use desk_model::{Call, Reply};
use graph_model::{Change, ChangeReply, List, Mem, Name, Node, Prop, PropertyGraph, Refusal, Rel};
use graph_store::{Snapshot, Store};
use std::alloc::Global;

/// As many bytes as a line may have.
const MOST_LINE: usize = 16_777_216;

/// A store, and the store as it was at an earlier moment.
#[derive(Drop)]
pub(crate) struct Stores {
    store: Store,
    earlier: Snapshot,
}

// A store with nothing in it.
fn empty_store(alloc: Global) -> Result<Store, Mem> {
    let nothing = PropertyGraph {
        nodes: List::new(alloc),
        rels: List::new(alloc),
        next_node: 0,
        next_rel: 0,
    };
    Store::of(alloc, nothing)
}

impl Stores {
    /// A store with nothing in it.
    pub(crate) fn new(alloc: Global) -> Result<Stores, Stop> {
        let store = empty_store(alloc)?;
        let earlier = store.snapshot()?;
        Ok(Stores { store, earlier })
    }

    /// The store at this moment.
    pub(crate) fn snapshot(&self) -> Result<Snapshot, Stop> {
        Ok(self.store.snapshot()?)
    }

    /// What one call gives. `new` begins with nothing; `keep` keeps the store as it is for the rows that begin with
    /// `earlier`; `gds.store.create` and the others that change the store take arguments, and give their answer. All else
    /// asks: `nodes`, `next`, `node ID`, `rel ID` and `from ID`, and `label`, `type`, `nodeKey` and `relKey` whether a name
    /// is known.
    pub(crate) fn given(&mut self, alloc: Global, asked: &str) -> Result<String, Stop> {
        let (call, rest) = asked.split_once(" ").unwrap_or((asked, ""));
        match call {
            "new" => self.begin(alloc),
            "keep" => self.keep(alloc),
            "earlier" => ask_earlier(alloc, &self.earlier, rest),
            "nodes" => shown_ids(alloc, self.store.nodes(alloc)?),
            "from" => shown_ids(alloc, self.store.rels_from(alloc, small(rest, 0)?)?),
            _ => self.change_or_ask(alloc, call, rest),
        }
    }

    /// What the store is projected to.
    pub(crate) fn project(&self, alloc: Global, asked: &str) -> Result<String, Stop> {
        let from = self.snapshot()?;
        projections::given(alloc, &from, asked)
    }

    fn begin(&mut self, alloc: Global) -> Result<String, Stop> {
        self.store = empty_store(alloc)?;
        Ok(String::from_str(alloc, "done")?)
    }

    fn keep(&mut self, alloc: Global) -> Result<String, Stop> {
        self.earlier = self.store.snapshot()?;
        Ok(String::from_str(alloc, "done")?)
    }

    fn change_or_ask(&mut self, alloc: Global, call: &str, rest: &str) -> Result<String, Stop> {
        if call.starts_with("gds.") {
            let change = change_asked(alloc, call, rest)?;
            return self.change(alloc, change);
        }
        ask_store(alloc, &self.store, call, rest)
    }

    // Makes a change, which is gone then, and shows its answer.
    fn change(&mut self, alloc: Global, change: Change) -> Result<String, Stop>
        requires { IsWellFormedChange change }
    {
        let answer = changed(alloc, &mut self.store, &change);
        drop(change);
        match answer {
            Ok(answer) => shown(alloc, Reply::Changed(answer)),
            Err(why) => shown(alloc, Reply::Refused(why)),
        }
    }
}

// Makes a change.
fn changed(alloc: Global, store: &mut Store, change: &Change) -> Result<ChangeReply, Refusal>
    requires { IsWellFormedChange change.now }
{
    match store.prepare(alloc, change) {
        Ok(made) => {
            let answer = made.answer();
            store.apply(made);
            Ok(answer)
        }
        Err(why) => Err(why),
    }
}

// The text of a reply.
fn shown(alloc: Global, reply: Reply) -> Result<String, Stop> {
    let text = text_of(alloc, reply)?;
    Ok(String::from_str(alloc, str::from_utf8(text.as_slice()).unwrap_or("?"))?)
}

// The change of a call.
fn change_of(call: Call) -> Result<Change, Stop>
    requires { IsFormedCall call }
    ensures { IfOk result IsWellFormedChange }
{
    match call {
        Call::Create { import: _, change } => Ok(change),
        Call::Alter { change } => Ok(change),
        Call::StoreRows { .. } => Err(Stop::Row),
    }
}

// The change that a line asks for.
fn change_in(alloc: Global, line: &[u8]) -> Result<Change, Stop>
    ensures { IfOk result IsWellFormedChange }
{
    if line.len() > MOST_LINE {
        return Err(Stop::Row);
    }
    match line_call(alloc, line) {
        Ok((_user, call)) => change_of(call),
        Err(_why) => Err(Stop::Row),
    }
}

// The change that a procedure with these arguments asks for.
fn change_asked(alloc: Global, call: &str, args: &str) -> Result<Change, Stop>
    ensures { IfOk result IsWellFormedChange }
{
    let line = format!(in alloc; "{{\"user\":\"u\",\"call\":\"{call}\",\"args\":{args}}}")?;
    change_in(alloc, line.as_bytes())
}

// Asks the store.
fn ask_store(alloc: Global, store: &Store, call: &str, rest: &str) -> Result<String, Stop> {
    match call {
        "next" => next_ids(alloc, store.next_node(), store.next_rel()),
        "node" => node(alloc, store.node(small(rest, 0)?)),
        "rel" => rel(alloc, store.rel(small(rest, 0)?)),
        _ => {
            let name = name(alloc, rest)?;
            known(alloc, knows(store, call, &name))
        }
    }
}

// Whether the store knows a name, where the word says what it is.
fn knows(store: &Store, call: &str, name: &Name) -> Option<bool> {
    match call {
        "label" => Some(store.knows_label(name)),
        "type" => Some(store.knows_type(name)),
        "nodeKey" => Some(store.knows_node_key(name)),
        "relKey" => Some(store.knows_rel_key(name)),
        _ => None,
    }
}

// Asks the store as it was.
fn ask_earlier(alloc: Global, store: &Snapshot, asked: &str) -> Result<String, Stop> {
    let (call, rest) = asked.split_once(" ").unwrap_or((asked, ""));
    match call {
        "next" => next_ids(alloc, store.next_node(), store.next_rel()),
        "node" => node(alloc, store.node(small(rest, 0)?)),
        "rel" => rel(alloc, store.rel(small(rest, 0)?)),
        _ => {
            let name = name(alloc, rest)?;
            known(alloc, knew(store, call, &name))
        }
    }
}

// Whether the store as it was knows a name, where the word says what it is.
fn knew(store: &Snapshot, call: &str, name: &Name) -> Option<bool> {
    match call {
        "label" => Some(store.knows_label(name)),
        "type" => Some(store.knows_type(name)),
        "nodeKey" => Some(store.knows_node_key(name)),
        "relKey" => Some(store.knows_rel_key(name)),
        _ => None,
    }
}

fn known(alloc: Global, known: Option<bool>) -> Result<String, Stop> {
    match known {
        Some(true) => Ok(String::from_str(alloc, "known")?),
        Some(false) => Ok(String::from_str(alloc, "unknown")?),
        None => Err(Stop::Row),
    }
}

fn next_ids(alloc: Global, node: u32, rel: u32) -> Result<String, Stop> {
    Ok(format!(in alloc; "node {node}, rel {rel}")?)
}

// Ids, or `none`.
fn shown_ids(alloc: Global, ids: List<u32>) -> Result<String, Stop> {
    let mut text = String::new(alloc);
    for id in ids.as_slice() {
        text.push_str(id.to_string(alloc)?.as_str())?;
        text.push_str(" ")?;
    }
    if text.is_empty() {
        text.push_str("none")?;
    }
    Ok(text)
}

fn put_name(text: &mut String, name: &Name) -> Result<(), Stop> {
    text.push_str(str::from_utf8(name.bytes()).unwrap_or("?"))?;
    Ok(())
}

// Values as `key=value`.
fn put_values(alloc: Global, text: &mut String, values: &[Prop]) -> Result<(), Stop> {
    for prop in values {
        text.push_str(" ")?;
        put_name(text, &prop.key)?;
        text.push_str("=")?;
        text.push_str(prop.value.to_string(alloc)?.as_str())?;
    }
    Ok(())
}

// The labels and values of a node, or `none`.
fn node(alloc: Global, node: Option<&Node>) -> Result<String, Stop> {
    let mut text = String::new(alloc);
    let Some(node) = node else {
        text.push_str("none")?;
        return Ok(text);
    };
    text.push_str(node.id.to_string(alloc)?.as_str())?;
    for label in node.labels.as_slice() {
        text.push_str(" ")?;
        put_name(&mut text, label)?;
    }
    put_values(alloc, &mut text, node.props.as_slice())?;
    Ok(text)
}

// The ends, the type and the values of a relationship, or `none`.
fn rel(alloc: Global, rel: Option<&Rel>) -> Result<String, Stop> {
    let mut text = String::new(alloc);
    let Some(rel) = rel else {
        text.push_str("none")?;
        return Ok(text);
    };
    let (source, target) = (rel.source, rel.target);
    text.push_str(format!(in alloc; "{} {source}-{target} ", rel.id)?.as_str())?;
    put_name(&mut text, &rel.kind)?;
    put_values(alloc, &mut text, rel.props.as_slice())?;
    Ok(text)
}
