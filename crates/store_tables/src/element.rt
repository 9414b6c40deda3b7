// What nodes and relationships have in common.
ghost use Rattle.std.specs.Prelude.{◌≡◌, ℕ, List, [], ◌∷◌, IfOk, refl};
ghost use Rattle.graph_model.specs.declared.graph.Prop.{Prop};

use graph_model::{List, Mem, Name, Node, Prop, Rel, TryClone};
use std::slice;

/// A node or a relationship: an id, values, and more that no change alters.
pub trait Element: Sized + Drop {
    /// The id.
    ghost id_of: { Self → ℕ };

    /// The values.
    ghost props_of: { Self → List Prop };

    /// The same element with other values.
    ghost with_props_of: { Self → List Prop → Self };

    /// The labels of a node; of a relationship its type alone.
    ghost classes_of: { Self → List (List ℕ) };

    fn id(&self) -> u32
        ensures { result ≡ id_of self.now };

    fn classes(&self) -> &[Name]
        ensures { result.now ≡ classes_of self.now };

    fn props(&self) -> &List<Prop>
        ensures { result.now ≡ props_of self.now };

    /// A copy with other values.
    fn with_props(&self, props: List<Prop>) -> Result<Self, Mem>
        ensures { IfOk result (λ copy. copy ≡ with_props_of self.now props) };

    ghost id_stays: { (element : Self) (props : List Prop) → id_of (with_props_of element props) ≡ id_of element };

    ghost props_are: { (element : Self) (props : List Prop) → props_of (with_props_of element props) ≡ props };

    ghost own_props: { (element : Self) → with_props_of element (props_of element) ≡ element };

    ghost classes_stay: { (element : Self) (props : List Prop) → classes_of (with_props_of element props) ≡ classes_of element };
}

impl Element for Node {
    ghost id_of = { λ node. node.id };

    ghost props_of = { λ node. node.props };

    ghost with_props_of = { λ node props. record node { props = props } };

    ghost classes_of = { λ node. node.labels };

    ghost id_stays = { λ node props. refl };

    ghost props_are = { λ node props. refl };

    ghost own_props = { λ node. refl };

    ghost classes_stay = { λ node props. refl };

    fn id(&self) -> u32 {
        self.id
    }

    fn classes(&self) -> &[Name] {
        self.labels.as_slice()
    }

    fn props(&self) -> &List<Prop> {
        &self.props
    }

    fn with_props(&self, props: List<Prop>) -> Result<Node, Mem> {
        Ok(Node {
            id: self.id,
            labels: self.labels.try_clone()?,
            props,
        })
    }
}

impl Element for Rel {
    ghost id_of = { λ rel. rel.id };

    ghost props_of = { λ rel. rel.props };

    ghost with_props_of = { λ rel props. record rel { props = props } };

    ghost classes_of = { λ rel. rel.kind ∷ [] };

    ghost id_stays = { λ rel props. refl };

    ghost props_are = { λ rel props. refl };

    ghost own_props = { λ rel. refl };

    ghost classes_stay = { λ rel props. refl };

    fn id(&self) -> u32 {
        self.id
    }

    fn classes(&self) -> &[Name] {
        slice::from_ref(&self.kind)
    }

    fn props(&self) -> &List<Prop> {
        &self.props
    }

    fn with_props(&self, props: List<Prop>) -> Result<Rel, Mem> {
        Ok(Rel {
            id: self.id,
            source: self.source,
            target: self.target,
            kind: self.kind.try_clone()?,
            props,
        })
    }
}
