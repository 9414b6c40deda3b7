// A projection from its three arguments.
ghost use Rattle.std.specs.Prelude.{◌≡◌, Some, None, IfOk, IfErr};
ghost use Rattle.serde_json.specs.View.{view};
ghost use Rattle.graph_model.specs.Refusals.{UnlessMem};
ghost use Rattle.projection_spec.specs.Projected.{spec_of, refused_spec};

use crate::added::{all_nodes, all_rels};
use crate::entries::ProjectSpec;
use crate::nodes::node_entries;
use crate::rels::written_entries;
use crate::settled::settled_entries;
use graph_model::Refusal;
use json_forms::{argument, wrong_argument};
use serde_json::Value;
use std::alloc::Global;

impl ProjectSpec {
    /// The projection that the nodes, the relationships and the configuration of a request say.
    ///
    /// # Errors
    /// `BadArgument` with the first argument, or key of the configuration, that is of a wrong form, and row 0; else
    /// `MixedAggregation` with the first projected type that keeps each arc and makes groups at once; or `Mem`.
    pub fn from_json(
        alloc: Global,
        nodes: &Value,
        rels: &Value,
        config: &Value,
    ) -> Result<ProjectSpec, Refusal>
        ensures ok { IfOk result (λ spec. (spec_of (view nodes.now) (view rels.now) (view config.now) ≡ Some spec) × (refused_spec (view nodes.now) (view rels.now) (view config.now) ≡ None)) }
        ensures refused { IfErr result (λ why. UnlessMem why (refused_spec (view nodes.now) (view rels.now) (view config.now) ≡ Some why)) }
    {
        let own_nodes = argument(alloc, "nodeProjection", node_entries(alloc, nodes))?;
        let own_rels = argument(
            alloc,
            "relationshipProjection",
            written_entries(alloc, rels),
        )?;
        if !config.is_object() {
            return Err(wrong_argument(alloc, "configuration"));
        }
        let nodes = argument(
            alloc,
            "configuration.nodeProperties",
            all_nodes(alloc, own_nodes, config),
        )?;
        let written = argument(
            alloc,
            "configuration.relationshipProperties",
            all_rels(alloc, own_rels, config),
        )?;
        match settled_entries(alloc, written) {
            Ok(rels) => Ok(ProjectSpec { nodes, rels }),
            Err(why) => Err(why),
        }
    }
}
