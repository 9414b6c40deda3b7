// Who works on a round or a step.
ghost use Rattle.std.specs.Prelude.{◌≤◌};

/// Where threads come from, and how many workers a round or a step is cut over.
#[derive(Drop)]
pub(crate) struct Workers<'a, R> {
    pub(crate) threads: &'a R,
    pub(crate) count: u32,
    pub(crate) ghost some: { 1 ≤ count },
    pub(crate) ghost few: { count ≤ 64 },
}
