// Laws of the machine, each the contract of a function that does nothing.
ghost use Rattle.std.specs.Prelude.{◌≡◌, [], ◌∷◌, true, false, Some, None, codes, pos};
ghost use Rattle.graph_model.specs.declared.change.ChangeReply.TheVariants.{Created};
ghost use Rattle.graph_model.specs.declared.refusal.Refusal.TheVariants as refusal;
ghost use Rattle.graph_making.specs.Making.{BuiltGraph, Store};
ghost use Rattle.desk_model.specs.declared.asked.Event.TheVariants as event;
ghost use Rattle.desk_model.specs.declared.job.JobKind.TheVariants as kind;
ghost use Rattle.desk_model.specs.Replies.{Changed, Stored, Making, Made, Asked, There, Graphs, Rows, JobLines, Refused};
ghost use Rattle.graph_model.specs.declared.graph.Choice.TheVariants.{All};
ghost use Rattle.graph_model.specs.SmallStore.{small_store};
ghost use Rattle.desk_model.specs.State.{no_lists};
ghost use Rattle.desk_model.specs.Step.{Plain, OutOfMemory, Fault, part_step};
ghost use Rattle.desk_model.specs.History.{StepsKeepValid, PermittedIsReady};
ghost use Rattle.desk_model.specs.Isolation.{RepliesAreReplayed, RepliesAreOwn, OthersStay};
ghost use Rattle.desk_model.specs.Going.{BegunIsGoing, GoingGoesOn};
ghost use Rattle.desk_model.specs.WorkedRows.{alice, bob, root, done, nothing_kept, import_small_store, imported, set_two, all_rows, small_part, begin_g, making_g, emptied, end_job, terminate, asked_g, made_g, line_g, drop_g, making_again, every_element, governed, governed_by, list_alice, drop_alice};

/// The table of steps, evaluated: the small store is imported, and imported again; its import fails for a fault of the
/// keeper and for want of memory; values of two of its nodes are set, and read back.
pub fn worked_rows()
    ensures imported { done import_small_store nothing_kept ≡ record { reply = Changed (Created 0 6 0 6); part = imported } }
    ensures again { done import_small_store imported ≡ record { reply = Changed (Created 0 6 0 6); part = imported } }
    ensures fault { part_step Fault alice import_small_store nothing_kept ≡ record { reply = Refused (refusal.StoreFault 0); part = nothing_kept } }
    ensures memory { part_step OutOfMemory alice import_small_store nothing_kept ≡ record { reply = Refused refusal.Mem; part = nothing_kept } }
    ensures rows { (done all_rows (done set_two imported).part).reply ≡ Stored ((0, pos 5) ∷ (2, pos 6) ∷ []) }
{}

/// Jobs that make graphs, evaluated: one begins and captures the small store; it ends with the graph of that moment, also
/// where the nodes were deleted since, and with a refusal where it was asked to end; and memory is wanting for one.
pub fn making_rows()
    ensures begun { (done begin_g small_part).reply ≡ Making 1 (codes "job-1") (Store small_store) }
    ensures memory { part_step OutOfMemory alice begin_g small_part ≡ record { reply = Refused refusal.Mem; part = small_part } }
    ensures jobs { (done event.Jobs making_g).reply ≡ JobLines (record { name = codes "job-1"; kind = kind.Making; asked = false; batches = 0 } ∷ []) }
    ensures taken { (done (event.ProjectBegin (codes "h") (Some (codes "job-1")) every_element) making_g).reply ≡ Refused (refusal.JobExists (codes "job-1")) }
    ensures made { (built : BuiltGraph) → (done (end_job 1 built) making_g).reply ≡ Made (line_g 1 (Some 1)) }
    ensures captured { (built : BuiltGraph) → (done (end_job 1 built) emptied).reply ≡ Made (line_g 1 (Some 1)) }
    ensures asked { (done terminate making_g).reply ≡ Asked (codes "job-1") }
    ensures unknown { (done terminate small_part).reply ≡ Refused (refusal.NoSuchJob (codes "job-1")) }
    ensures terminated { (built : BuiltGraph) → (done (end_job 1 built) asked_g).reply ≡ Refused (refusal.Terminated 0) }
    ensures ended { (built : BuiltGraph) → (done event.Jobs (done (end_job 1 built) asked_g).part).reply ≡ JobLines [] }
    ensures abandoned { (done event.Jobs (done (event.Abandon 1) making_g).part).reply ≡ JobLines [] }
{}

/// Named graphs, evaluated: one is found, told and read; its name is taken; it is dropped, and made anew in another version.
pub fn graph_rows()
    ensures there { (built : BuiltGraph) → (done (event.Exists (codes "g")) (made_g built)).reply ≡ There (codes "g") true }
    ensures told { (built : BuiltGraph) → (done (event.List None None) (made_g built)).reply ≡ Graphs (line_g 1 None ∷ []) }
    ensures missing { (built : BuiltGraph) → (done (event.List (Some (codes "h")) None) (made_g built)).reply ≡ Graphs [] }
    ensures taken { (built : BuiltGraph) → (done begin_g (made_g built)).reply ≡ Refused (refusal.GraphExists (codes "g")) }
    ensures read { (built : BuiltGraph) → (done (event.GraphRows (codes "g") (codes "c") All) (made_g built)).reply ≡ Rows ((0, pos 7) ∷ (1, pos 7) ∷ (2, pos 7) ∷ (3, pos 7) ∷ (4, pos 7) ∷ (5, pos 7) ∷ []) }
    ensures key { (built : BuiltGraph) → (done (event.GraphRows (codes "g") (codes "d") All) (made_g built)).reply ≡ Refused (refusal.NoSuchProperty (codes "d")) }
    ensures dropped { (built : BuiltGraph) → (done drop_g (made_g built)).reply ≡ Graphs (line_g 1 None ∷ []) }
    ensures gone { (done drop_g small_part).reply ≡ Refused (refusal.NoSuchGraph (codes "g")) }
    ensures again { (built : BuiltGraph) → (done (end_job 2 built) (making_again built)).reply ≡ Made (line_g 2 (Some 2)) }
{}

/// An administrator, evaluated: who may list and drop another's graphs, and is told of them; who may not; that the own name is
/// no other's; and that a drop is of the named user's graph alone.
pub fn admin_rows()
    ensures listed { (built : BuiltGraph) → (governed_by root list_alice built).reply ≡ Graphs (line_g 1 None ∷ []) }
    ensures denied { (built : BuiltGraph) → (governed_by bob list_alice built).reply ≡ Refused (refusal.NotAdmin alice) }
    ensures own { (built : BuiltGraph) → (governed_by alice list_alice built).reply ≡ Graphs (line_g 1 None ∷ []) }
    ensures unnamed { (built : BuiltGraph) → (governed_by root (event.List None None) built).reply ≡ Graphs [] }
    ensures dropped { (built : BuiltGraph) → (governed_by root drop_alice built).reply ≡ Graphs (line_g 1 None ∷ []) }
    ensures gone { (built : BuiltGraph) → ((governed_by root drop_alice built).state.lists alice).graphs ≡ [] }
    ensures kept { (built : BuiltGraph) → (governed_by bob drop_alice built).state.lists alice ≡ (made_g built).lists }
    ensures first { (built : BuiltGraph) → (governed_by bob (event.Drop (codes "h") true (Some alice)) built).reply ≡ Refused (refusal.NotAdmin alice) }
    ensures missing { (built : BuiltGraph) → (governed_by root (event.Drop (codes "h") true (Some alice)) built).reply ≡ Refused (refusal.NoSuchGraph (codes "h")) }
{}

/// The replies of a user who isn't the administrator are made of that user's part, of the changes that others committed and of
/// the drops of the user's graphs by others, in every legal history. The reply to an event that names no other user is made of
/// the caller's part, the event and the mark, for the administrator too; and an entry leaves the lists of all users but the one
/// on whose lists it works.
pub fn isolation()
    ensures replayed { RepliesAreReplayed }
    ensures own { RepliesAreOwn }
    ensures others { OthersStay }
{}

/// What every machine keeps of its users' lists is kept by every step. So in every legal history from such a state, whatever
/// jobs stand in it, what a pass's own entries permit is ready in the state after it: a job that they show as going on is there,
/// in the needed stage, with what it captured and was asked for.
pub fn permitted_is_ready()
    ensures valid { StepsKeepValid }
    ensures ready { PermittedIsReady }
{}

/// A job that begins is going on, with what it was asked for and what its reply hands out, until an event of its user ends it.
pub fn jobs_go_on()
    ensures begun { BegunIsGoing }
    ensures goes_on { GoingGoesOn }
{}
