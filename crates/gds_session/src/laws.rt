// Laws of the definitions, each the contract of a function that does nothing.
ghost use Rattle.std.specs.Prelude.{◌≡◌, [], ◌++◌, Ok, Err, codes};
ghost use Rattle.gds_session.specs.OnceText.{once_text};
ghost use Rattle.gds_session.specs.Printing.{AcceptedIsPrinting, PrintingIsAccepted, RefusedAtFirstWrongLine};

/// The worked rows of `once degree`, as the definition computes them.
pub fn worked_rows()
    ensures six { once_text (codes "nodes 6\nrel 0 1\nrel 1 2\nrel 0 2\nrel 2 2\nrel 3 4\nrel 3 4\n") ≡ Ok (codes "0 2\n1 1\n2 1\n3 2\n4 0\n5 0\n") }
    ensures none { once_text (codes "nodes 0") ≡ Ok [] }
    ensures empty { once_text [] ≡ Err 1 }
    ensures outside { once_text (codes "nodes 2\nrel 0 2\n") ≡ Err 2 }
    ensures empty_line { once_text (codes "nodes 2\n\n") ≡ Err 2 }
    ensures leading_zero { once_text (codes "nodes 02\n") ≡ Err 1 }
{}

/// A text that `once degree` accepts is the printing of a small graph, and what is printed are
/// the degrees of its nodes.
pub fn accepted_is_printing()
    ensures { AcceptedIsPrinting }
{}

/// `once degree` accepts the printing of each small graph, and prints the degrees of its nodes.
pub fn printing_is_accepted()
    ensures { PrintingIsAccepted }
{}

/// A text that `once degree` refuses is refused at its first wrong line: what stands before that
/// line prints a small graph, and no text that begins with the lines up to it does.
pub fn refused_at_first_wrong_line()
    ensures { RefusedAtFirstWrongLine }
{}
