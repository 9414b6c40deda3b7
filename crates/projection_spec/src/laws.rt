// Laws of the definitions, each the contract of a function that does nothing.
ghost use Rattle.std.specs.Prelude.{◌≡◌, pos, negsuc, false, true, [], ◌∷◌, length, codes, Ok, Err, Some, None};
ghost use Rattle.serde_json.specs.Data.{string, number, unsigned, null};
ghost use Rattle.graph_model.specs.declared.refusal.Refusal.TheVariants.{MixedAggregation};
ghost use Rattle.projection_spec.specs.KeptArcs.{kept_arcs};
ghost use Rattle.projection_spec.specs.WorkedRows.{key_w, type_r, count_all, each_rule, small_arcs, small_kept, kept, one_arc};
ghost use Rattle.projection_spec.specs.JsonRows.{list, fields, field, node_prop_row, node_row, rel_prop_row, rel_row, nodes_spec, nodes_refused, rels_spec, rels_refused, of_nodes, of_rels, plain, wrong, type_r_said, w_by};
ghost use Rattle.graph_model.specs.Projection.{missing_value};
ghost use Rattle.graph_model.specs.SmallStore.{empty_graph, small_store};
ghost use Rattle.graph_model.specs.declared.refusal.Refusal.TheVariants.{NoSuchLabel, NoSuchType, NoSuchProperty, SumOutOfRange};
ghost use Rattle.projection_spec.specs.NativeProjection.{projected};
ghost use Rattle.projection_spec.specs.NativeRows.{counts, of_all, small_counts, labelled, k_from_b, labelled_nodes, rel, sum_counts, of_type};

use crate::entries::Rule;
use graph_model::Orientation;

/// The arcs of a small store, raw and kept, as the definitions compute them.
pub fn worked_rows()
    ensures undirected { length (small_arcs (type_r Orientation.Undirected false [])) ≡ 12 }
    ensures counted { small_kept (type_r Orientation.Undirected true (count_all ∷ [])) ≡ Ok (
        kept 0 1 0 (pos 1 ∷ []) ∷ kept 0 2 2 (pos 1 ∷ []) ∷ kept 1 0 0 (pos 1 ∷ []) ∷ kept 1 2 1 (pos 1 ∷ [])
        ∷ kept 2 0 2 (pos 1 ∷ []) ∷ kept 2 1 1 (pos 1 ∷ []) ∷ kept 2 2 3 (pos 2 ∷ []) ∷ kept 3 4 4 (pos 2 ∷ [])
        ∷ kept 4 3 4 (pos 2 ∷ []) ∷ []) }
    ensures each_rule { small_kept (type_r Orientation.Natural true each_rule) ≡ Ok (
        kept 0 1 0 (pos 4 ∷ pos 4 ∷ pos 4 ∷ pos 1 ∷ pos 4 ∷ [])
        ∷ kept 0 2 2 (pos 7 ∷ pos 7 ∷ pos 7 ∷ pos 1 ∷ pos 7 ∷ [])
        ∷ kept 1 2 1 (pos 1 ∷ pos 1 ∷ pos 1 ∷ pos 1 ∷ pos 1 ∷ [])
        ∷ kept 2 2 3 (pos 0 ∷ pos 0 ∷ pos 0 ∷ pos 1 ∷ pos 0 ∷ [])
        ∷ kept 3 4 4 (pos 2 ∷ pos 5 ∷ pos 7 ∷ pos 2 ∷ pos 5 ∷ []) ∷ []) }
    ensures too_great { kept_arcs (type_r Orientation.Natural true (key_w (codes "w") Rule.Sum ∷ []))
        (one_arc 0 (pos 9223372036854775807) ∷ one_arc 1 (pos 1) ∷ [])
        ≡ Err (record { source = 0; target = 1; key = codes "w" }) }
    ensures great { kept_arcs (type_r Orientation.Natural true (key_w (codes "w") Rule.Sum ∷ []))
        (one_arc 0 (pos 9223372036854775807) ∷ one_arc 1 (pos 1) ∷ one_arc 2 (negsuc 0) ∷ [])
        ≡ Ok (kept 0 1 0 (pos 9223372036854775807 ∷ []) ∷ []) }
{}

/// Whole projections of small graphs, as the definition computes them.
pub fn native_rows()
    ensures natural { small_counts (type_r Orientation.Natural false (key_w (codes "w") Rule.Keep ∷ [])) ≡ Ok (6, 6) }
    ensures undirected { small_counts (type_r Orientation.Undirected false []) ≡ Ok (6, 12) }
    ensures counted { small_counts (type_r Orientation.Undirected true (count_all ∷ [])) ≡ Ok (6, 9) }
    ensures each_rule { small_counts (type_r Orientation.Natural true each_rule) ≡ Ok (6, 5) }
    ensures empty { counts (projected (of_all []) empty_graph) ≡ Ok (0, 0) }
    ensures labels_and_values { labelled_nodes ≡
        record { id = 0; labels = codes "A" ∷ []; values = missing_value ∷ pos 1 ∷ [] }
        ∷ record { id = 1; labels = codes "A" ∷ codes "B" ∷ []; values = pos 3 ∷ pos 7 ∷ [] }
        ∷ record { id = 2; labels = codes "B" ∷ []; values = pos 3 ∷ missing_value ∷ [] }
        ∷ [] }
    ensures no_label { projected (record { nodes = labelled (codes "A") [] ∷ []; rels = of_type (codes "T") ∷ [] }) small_store ≡ Err (NoSuchLabel (codes "A")) }
    ensures no_type { projected (of_all (of_type (codes "T") ∷ [])) small_store ≡ Err (NoSuchType (codes "T")) }
    ensures no_key { projected (record { nodes = record { label = codes "A"; store = None; props = k_from_b ∷ [] } ∷ []; rels = [] }) small_store ≡ Err (NoSuchProperty (codes "b")) }
    ensures too_great { sum_counts (rel 0 (pos 9223372036854775807) ∷ rel 1 (pos 1) ∷ []) ≡ Err (SumOutOfRange (codes "R") (codes "s") 3 8) }
    ensures great { sum_counts (rel 0 (pos 9223372036854775807) ∷ rel 1 (pos 1) ∷ rel 2 (negsuc 0) ∷ []) ≡ Ok (2, 1) }
{}

/// What the arguments of a projection mean, for the nodes.
pub fn node_rows()
    ensures star { nodes_spec (string (codes "*")) plain ≡ of_nodes (node_row (codes "__ALL__") None [] ∷ []) }
    ensures text { nodes_spec (string (codes "A")) plain ≡ of_nodes (node_row (codes "A") (Some (codes "A")) [] ∷ []) }
    ensures list { nodes_spec (list (string (codes "B") ∷ string (codes "A") ∷ string (codes "*") ∷ [])) plain
        ≡ of_nodes (node_row (codes "A") (Some (codes "A")) [] ∷ node_row (codes "B") (Some (codes "B")) [] ∷ node_row (codes "__ALL__") None [] ∷ []) }
    ensures every_node { nodes_spec (field (codes "A") (string (codes "*"))) plain ≡ of_nodes (node_row (codes "A") None [] ∷ []) }
    ensures other_label { nodes_spec (field (codes "A") (field (codes "label") (string (codes "B")))) plain
        ≡ of_nodes (node_row (codes "A") (Some (codes "B")) [] ∷ []) }
    ensures no_label { nodes_spec (field (codes "__ALL__") (fields [])) plain ≡ of_nodes (node_row (codes "__ALL__") (Some (codes "__ALL__")) [] ∷ []) }
    ensures keys { nodes_spec (field (codes "A") (field (codes "properties") (fields (
        (codes "a", string (codes "w")) ∷ (codes "b", fields ((codes "defaultValue", number (unsigned 7)) ∷ [])) ∷ [])))) plain
        ≡ of_nodes (node_row (codes "A") (Some (codes "A")) (
        node_prop_row (codes "a") (codes "w") None ∷ node_prop_row (codes "b") (codes "b") (Some (pos 7)) ∷ []) ∷ []) }
    ensures added { nodes_spec (field (codes "A") (field (codes "properties") (field (codes "b") (string (codes "w")))))
        (field (codes "nodeProperties") (list (string (codes "b") ∷ string (codes "a") ∷ [])))
        ≡ of_nodes (node_row (codes "A") (Some (codes "A")) (
        node_prop_row (codes "a") (codes "a") None ∷ node_prop_row (codes "b") (codes "w") None ∷ []) ∷ []) }
    ensures one_label { nodes_refused (list (string (codes "*") ∷ string (codes "__ALL__") ∷ [])) plain ≡ wrong (codes "nodeProjection") }
    ensures star_as_name { nodes_refused (field (codes "*") (fields [])) plain ≡ wrong (codes "nodeProjection") }
    ensures no_entry { nodes_refused (list []) plain ≡ wrong (codes "nodeProjection") }
    ensures other_field { nodes_refused (field (codes "A") (field (codes "type") (string (codes "A")))) plain ≡ wrong (codes "nodeProjection") }
    ensures great_default { nodes_refused (field (codes "A") (field (codes "properties") (field (codes "a")
        (field (codes "defaultValue") (number (unsigned 9223372036854775808)))))) plain ≡ wrong (codes "nodeProjection") }
    ensures wrong_added { nodes_refused (string (codes "*")) (field (codes "nodeProperties") (string (codes "*"))) ≡ wrong (codes "configuration.nodeProperties") }
    ensures no_config { nodes_refused (string (codes "*")) null ≡ wrong (codes "configuration") }
{}

/// What the arguments of a projection mean, for the relationships.
pub fn rel_rows()
    ensures words { rels_spec (type_r_said ((codes "aggregation", string (codes "mAx")) ∷ (codes "orientation", string (codes "uNDIRECTed")) ∷ (codes "properties", string (codes "w")) ∷ [])) plain
        ≡ of_rels (rel_row (codes "R") (Some (codes "R")) Orientation.Undirected true (rel_prop_row (codes "w") (Some (codes "w")) None Rule.Max ∷ []) ∷ []) }
    ensures no_key { rels_spec (type_r_said ((codes "aggregation", string (codes "SINGLE")) ∷ [])) plain
        ≡ of_rels (rel_row (codes "R") (Some (codes "R")) Orientation.Natural true [] ∷ []) }
    ensures counted { rels_spec (type_r_said ((codes "aggregation", string (codes "COUNT")) ∷ (codes "properties", field (codes "c") (string (codes "*"))) ∷ [])) plain
        ≡ of_rels (rel_row (codes "R") (Some (codes "R")) Orientation.Natural true (rel_prop_row (codes "c") None None Rule.Count ∷ []) ∷ []) }
    ensures mixed { rels_refused (type_r_said ((codes "properties", fields ((codes "a", w_by (codes "NONE")) ∷ (codes "b", w_by (codes "MAX")) ∷ [])) ∷ [])) plain
        ≡ Some (MixedAggregation (codes "R")) }
    ensures given_none { rels_refused (type_r_said ((codes "aggregation", string (codes "NONE")) ∷ (codes "properties", field (codes "b") (w_by (codes "MAX"))) ∷ [])) plain
        ≡ Some (MixedAggregation (codes "R")) }
    ensures none_given { rels_spec (type_r_said ((codes "properties", field (codes "b") (w_by (codes "MAX"))) ∷ [])) plain
        ≡ of_rels (rel_row (codes "R") (Some (codes "R")) Orientation.Natural true (rel_prop_row (codes "b") (Some (codes "w")) None Rule.Max ∷ []) ∷ []) }
    ensures star_key { rels_refused (type_r_said ((codes "aggregation", string (codes "COUNT")) ∷ (codes "properties", string (codes "*")) ∷ [])) plain
        ≡ wrong (codes "relationshipProjection") }
    ensures star_alone { rels_refused (type_r_said ((codes "properties", field (codes "c") (string (codes "*"))) ∷ [])) plain ≡ wrong (codes "relationshipProjection") }
    ensures no_word { rels_refused (type_r_said ((codes "aggregation", string (codes "DEFAULT")) ∷ [])) plain ≡ wrong (codes "relationshipProjection") }
    ensures added { rels_spec (string (codes "R")) (field (codes "relationshipProperties") (field (codes "b") (w_by (codes "sum"))))
        ≡ of_rels (rel_row (codes "R") (Some (codes "R")) Orientation.Natural true (rel_prop_row (codes "b") (Some (codes "w")) None Rule.Sum ∷ []) ∷ []) }
    ensures star_added { rels_refused (string (codes "R")) (field (codes "relationshipProperties") (field (codes "c") (string (codes "*"))))
        ≡ wrong (codes "configuration.relationshipProperties") }
    ensures mixed_by_added { rels_refused (type_r_said ((codes "aggregation", string (codes "SUM")) ∷ [])) (field (codes "relationshipProperties") (field (codes "b") (w_by (codes "none"))))
        ≡ Some (MixedAggregation (codes "R")) }
{}
