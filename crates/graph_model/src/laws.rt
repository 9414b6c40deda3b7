// Laws of the definitions, each the contract of a function that does nothing.
ghost use Rattle.std.specs.Prelude.{◌≡◌, [], ◌∷◌, Some, None, codes, pos, negsuc, true};
ghost use Rattle.graph_model.specs.Change.{after_change, refused_change, change_answer};
ghost use Rattle.graph_model.specs.ById.{ElementsComeById};
ghost use Rattle.graph_model.specs.ChangeLaws.{FittingChangeKeepsGraph, IdsAreNotUsedAgain};
ghost use Rattle.graph_model.specs.KeptLaws.{FittingCommitKeepsKept, NotesAddAnswers, AnswerStandsUnderId};
ghost use Rattle.graph_model.specs.Degrees.{degrees, weight_refusal};
ghost use Rattle.graph_model.specs.Neighbours.{heavier_view, neighbour_rows, turned_view};
ghost use Rattle.graph_model.specs.SmallView.{heavy, heavy_view, bare_view, small_view, wrong_arcs};
ghost use Rattle.graph_model.specs.SmallStore.{empty_graph, make_small_store, small_store, without_node_2};

use crate::change::{Change, ChangeReply};
use crate::refusal::{EntityKind, Refusal};

/// The definitions of changes, evaluated on a small store: it is made, its node 2 is deleted, and then isn't there.
pub fn worked_rows()
    ensures made { after_change empty_graph make_small_store ≡ small_store }
    ensures allowed { refused_change empty_graph make_small_store ≡ None }
    ensures answer { change_answer empty_graph make_small_store ≡ ChangeReply.Created 0 6 0 6 }
    ensures deleted { after_change small_store (Change.DeleteNodes (2 ∷ [])) ≡ without_node_2 }
    ensures gone { change_answer small_store (Change.DeleteNodes (2 ∷ [])) ≡ ChangeReply.Deleted 1 3 }
    ensures missing { refused_change without_node_2 (Change.DeleteNodes (2 ∷ [])) ≡ Some (Refusal.NoSuchEntity EntityKind.Node 2) }
    ensures last_stays { after_change small_store (Change.SetNodes (codes "d") ((0, pos 5) ∷ (0, pos 6) ∷ [])) ≡ after_change small_store (Change.SetNodes (codes "d") ((0, pos 6) ∷ [])) }
{}

/// A change that fits keeps a graph valid, and it is within the limits afterwards.
pub fn fitting_change_keeps_graph()
    ensures { FittingChangeKeepsGraph }
{}

/// No change uses an id again: no counter falls, and an id that was given before and doesn't live never lives again.
pub fn ids_are_not_used_again()
    ensures { IdsAreNotUsedAgain }
{}

/// A change and a note that fit keep valid what is kept. A note puts its answer at its place among those of its user: under
/// its id stands the answer then, all else stands as before, and the answers of all other users stay.
pub fn notes_are_kept()
    ensures valid { FittingCommitKeepsKept }
    ensures places { NotesAddAnswers }
    ensures found { AnswerStandsUnderId }
{}

/// In a valid graph the nodes, and the relationships, are those that live of each id, one id after another.
pub fn elements_come_by_id()
    ensures { ElementsComeById }
{}

/// The degrees of a small view, and the first weight that is refused, evaluated.
pub fn degree_rows()
    ensures counts { degrees bare_view ≡ pos 2 ∷ pos 1 ∷ pos 1 ∷ pos 2 ∷ pos 0 ∷ pos 0 ∷ [] }
    ensures sums { degrees heavy_view ≡ pos 11 ∷ pos 1 ∷ pos 0 ∷ pos 7 ∷ pos 0 ∷ pos 0 ∷ [] }
    ensures taken { weight_refusal heavy_view ≡ None }
    ensures weightless { weight_refusal bare_view ≡ None }
    ensures first { weight_refusal (small_view true wrong_arcs) ≡ Some (Refusal.WeightOutOfRange 0 2 (negsuc 0)) }
{}

/// The neighbours of a small view, those by arcs that weigh more than 4, and its arcs turned, evaluated.
pub fn neighbour_rows()
    ensures sets { neighbour_rows bare_view ≡ (1 ∷ 2 ∷ []) ∷ (0 ∷ 2 ∷ []) ∷ (0 ∷ 1 ∷ []) ∷ (4 ∷ []) ∷ (3 ∷ []) ∷ [] ∷ [] }
    ensures heavier { neighbour_rows (heavier_view (pos 4) heavy_view) ≡ (2 ∷ []) ∷ [] ∷ (0 ∷ []) ∷ (4 ∷ []) ∷ (3 ∷ []) ∷ [] ∷ [] }
    ensures turned { turned_view heavy_view ≡ small_view true (heavy 1 0 (pos 4) ∷ heavy 2 0 (pos 7) ∷ heavy 2 1 (pos 1) ∷ heavy 2 2 (pos 0) ∷ heavy 4 3 (pos 5) ∷ heavy 4 3 (pos 2) ∷ []) }
{}
