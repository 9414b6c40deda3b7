// The rule of a round.
ghost use Rattle.std.specs.Prelude.{ℕ, List, ◌≡◌, ◌<◌, ◌≤◌, length};
ghost use Rattle.std.specs.List.{All, Contains};
ghost use Rattle.round_engine.specs.Columns.{value_at, NowhereGreater, AllSound};

/// The rule that gives each place of a column its next value. Places count from 0, and a column has a value for each.
pub trait Kernel {
    /// The number of places.
    ghost size: { Self → ℕ };

    /// The next value at a place of a column.
    ghost next_value: { Self → List ℕ → ℕ → ℕ };

    /// The places that a place touches.
    ghost touched: { Self → ℕ → List ℕ };

    /// Which values are sound at a place: the place comes first.
    ghost IsSound: { Self → ℕ → ℕ → Type 0 };

    /// The number of places.
    fn len(&self) -> u32
        ensures { result ≡ size self.now };

    /// The next value at place `v`, which is computed from the values at `v` and at the places that touch `v` alone.
    fn next(&self, column: &[u64], v: u32) -> u64
        requires as_long { length column.now ≡ size self.now }
        requires in_range { v < size self.now }
        ensures { result ≡ next_value self.now column.now v };

    /// The places whose next value may depend on the value at `u`, in any order; `u` itself need not be among them.
    fn touches(&self, u: u32) -> &[u32]
        requires in_range { u < size self.now }
        ensures { result.now ≡ touched self.now u };

    /// Each place that is touched is a place of the column.
    ghost touches_places: { (kernel : Self) (u : ℕ) → u < size kernel → All (λ v. v < size kernel) (touched kernel u) };

    /// No value rises.
    ghost falls: { (kernel : Self) (column : List ℕ) (v : ℕ) → length column ≡ size kernel → v < size kernel
        → next_value kernel column v ≤ value_at column v };

    /// A column that is nowhere greater gives values that are nowhere greater.
    ghost keeps_order: { (kernel : Self) (lower : List ℕ) (upper : List ℕ) (v : ℕ) → length lower ≡ size kernel
        → length upper ≡ size kernel → v < size kernel → NowhereGreater lower upper
        → next_value kernel lower v ≤ next_value kernel upper v };

    /// Sound values give sound values.
    ghost keeps_sound: { (kernel : Self) (column : List ℕ) (v : ℕ) → length column ≡ size kernel → v < size kernel
        → AllSound (IsSound kernel) column → IsSound kernel v (next_value kernel column v) };

    /// Two columns that agree at a place, and at every place that touches it, have the same next value there.
    ghost looks_near: { (kernel : Self) (one : List ℕ) (other : List ℕ) (v : ℕ) → length one ≡ size kernel
        → length other ≡ size kernel → v < size kernel → value_at one v ≡ value_at other v
        → ((u : ℕ) → u < size kernel → Contains (touched kernel u) v → value_at one u ≡ value_at other u)
        → next_value kernel one v ≡ next_value kernel other v };
}
