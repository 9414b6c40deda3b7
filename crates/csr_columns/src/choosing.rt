// Choices of labels and types, resolved by name.
ghost use Rattle.std.specs.Prelude.{◌≡◌, ◌&&◌, ◌∷◌, [], not, map, count_by, IfSome, option_copied};
ghost use Rattle.std.specs.List.{list_all};
ghost use Rattle.graph_model.specs.Projection.{is_among};
ghost use Rattle.graph_model.specs.View.{unknown_choice, first_unknown};
ghost use Rattle.csr_columns.specs.Parts.{kind_of};
ghost use Rattle.csr_columns.specs.Choosing.{chooses_name, chooses_kind, chosen, first_of, has_column, first_directed_kind};

use crate::columns;
use crate::parts::TypeColumns;
use graph_model::{Choice, Name, Orientation};

/// Whether a choice has a name.
pub(crate) fn chooses(choice: &Choice, name: &Name) -> bool
    ensures { result ≡ chooses_name choice.now name.now }
{
    match choice {
        Choice::All => true,
        Choice::Of(names) => columns::is_among(names.as_slice(), name),
    }
}

/// The first name of a choice that isn't known.
pub(crate) fn unknown<'a>(known: &[Name], choice: &'a Choice) -> Option<&'a Name>
    ensures { option_copied result ≡ unknown_choice known.now choice.now }
{
    match choice {
        Choice::All => None,
        Choice::Of(names) => first_unknown(known, names.as_slice()),
    }
}

/// The first of some names that isn't known.
fn first_unknown<'a>(known: &[Name], names: &'a [Name]) -> Option<&'a Name>
    ensures { option_copied result ≡ first_unknown known.now names.now }
{
    for name in names {
        if !columns::is_among(known, name) {
            return Some(name);
        }
    }
    None
}

/// The first name of a choice that no type has.
pub(crate) fn unknown_type<'a>(types: &[TypeColumns], choice: &'a Choice) -> Option<&'a Name>
    ensures { option_copied result ≡ unknown_choice (map kind_of types.now) choice.now }
{
    match choice {
        Choice::All => None,
        Choice::Of(names) => first_unknown_type(types, names.as_slice()),
    }
}

/// The first of some names that no type has.
fn first_unknown_type<'a>(types: &[TypeColumns], names: &'a [Name]) -> Option<&'a Name>
    ensures { option_copied result ≡ first_unknown (map kind_of types.now) names.now }
{
    for name in names {
        if !is_type(types, name) {
            return Some(name);
        }
    }
    None
}

/// Whether a type has this name.
fn is_type(types: &[TypeColumns], name: &Name) -> bool
    ensures { result ≡ is_among (map kind_of types.now) name.now }
{
    for kind in types {
        if *name == kind.kind {
            return true;
        }
    }
    false
}

/// Whether each chosen type has a key.
pub(crate) fn have_key(types: &[TypeColumns], choice: &Choice, key: &Name) -> bool
    ensures { result ≡ list_all (has_column key.now) (chosen choice.now types.now) }
{
    for kind in types {
        if lacks(kind, choice, key) {
            return false;
        }
    }
    true
}

/// Whether a type is chosen and lacks a key.
fn lacks(kind: &TypeColumns, choice: &Choice, key: &Name) -> bool
    ensures { result ≡ (chooses_kind choice.now kind.now && not (has_column key.now kind.now)) }
{
    if chooses(choice, &kind.kind) {
        !kind.arcs.get().has_key(key)
    } else {
        false
    }
}

/// The first chosen type that isn't undirected.
pub(crate) fn first_directed<'a>(types: &'a [TypeColumns], choice: &Choice) -> Option<&'a Name>
    ensures { option_copied result ≡ first_directed_kind (chosen choice.now types.now) }
{
    for kind in types {
        if chooses(choice, &kind.kind) && kind.orientation != Orientation::Undirected {
            return Some(&kind.kind);
        }
    }
    None
}

/// The one chosen type, `None` where none or several are chosen.
pub(crate) fn only_chosen<'a>(types: &'a [TypeColumns], choice: &Choice) -> Option<&'a TypeColumns>
    ensures { IfSome (option_copied result) (λ type. chosen choice.now types.now ≡ type ∷ []) }
{
    if chosen_count(types, choice) == 1 {
        first_chosen(types, choice)
    } else {
        None
    }
}

/// How many types are chosen.
fn chosen_count(types: &[TypeColumns], choice: &Choice) -> usize
    ensures { result ≡ count_by (chooses_kind choice.now) types.now }
{
    types
        .iter()
        .filter(|kind| chooses(choice, &kind.kind))
        .count()
}

/// The first chosen type.
fn first_chosen<'a>(types: &'a [TypeColumns], choice: &Choice) -> Option<&'a TypeColumns>
    ensures { option_copied result ≡ first_of (chosen choice.now types.now) }
{
    for kind in types {
        if chooses(choice, &kind.kind) {
            return Some(kind);
        }
    }
    None
}
