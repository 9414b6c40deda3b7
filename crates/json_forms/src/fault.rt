// Why a part of an argument can't be read.
ghost use Rattle.std.specs.Prelude.{◌≡◌};
ghost use Rattle.json_forms.specs.declared.fault.Fault.TheVariants as variant;
ghost use Rattle.json_forms.specs.Faults.{fault_of};

use graph_model::NameError;

/// Why a part of an argument can't be read. Which argument it is, is said where it becomes a refusal.
#[derive(Clone, Copy, Debug, PartialEq, Eq)]
pub enum Fault {
    /// The part is of a wrong form.
    Wrong,
    /// No memory was to be had.
    Mem,
}

impl From<graph_model::Mem> for Fault {
    ghost from_gives = { λ _ why. why ≡ variant.Mem };

    fn from(_mem: graph_model::Mem) -> Fault {
        Fault::Mem
    }
}

impl From<NameError> for Fault {
    ghost from_gives = { λ error why. why ≡ fault_of error };

    fn from(error: NameError) -> Fault {
        match error {
            NameError::Malformed => Fault::Wrong,
            NameError::Mem => Fault::Mem,
        }
    }
}
