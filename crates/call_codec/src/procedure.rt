// The table of procedures.
ghost use Rattle.std.specs.Prelude.{◌≡◌, map};
ghost use Rattle.call_codec.specs.Calls.{procedure_named, arguments_of};

/// A procedure that a line may call.
#[derive(Clone, Copy, Debug, PartialEq, Eq)]
pub(crate) enum Procedure {
    /// `gds.store.create`
    Create,
    /// `gds.store.setNodes`
    SetNodes,
    /// `gds.store.setRelationships`
    SetRels,
    /// `gds.store.deleteNodes`
    DeleteNodes,
    /// `gds.store.deleteRelationships`
    DeleteRels,
    /// `gds.store.nodeProperty`
    NodeProperty,
}

impl Procedure {
    /// The procedure of a name.
    pub(crate) fn named(name: &str) -> Option<Procedure>
        ensures { result ≡ procedure_named name.now }
    {
        if name == "gds.store.create" {
            Some(Procedure::Create)
        } else if name == "gds.store.setNodes" {
            Some(Procedure::SetNodes)
        } else if name == "gds.store.setRelationships" {
            Some(Procedure::SetRels)
        } else if name == "gds.store.deleteNodes" {
            Some(Procedure::DeleteNodes)
        } else if name == "gds.store.deleteRelationships" {
            Some(Procedure::DeleteRels)
        } else if name == "gds.store.nodeProperty" {
            Some(Procedure::NodeProperty)
        } else {
            None
        }
    }

    /// The names of its arguments, in the order in which they are judged.
    pub(crate) fn arguments(self) -> &'static [&'static str]
        ensures { map (λ name. name.now) result.now ≡ arguments_of self }
    {
        match self {
            Procedure::Create => &["importId", "nodes", "relationships"],
            Procedure::SetNodes | Procedure::SetRels => &["key", "values"],
            Procedure::DeleteNodes | Procedure::DeleteRels => &["ids"],
            Procedure::NodeProperty => &["key", "labels"],
        }
    }
}
