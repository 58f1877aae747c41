// What a value that is taken in turn stands for.
ghost use Rattle.std.specs.Prelude.{ℕ, List};

use std::marker::Brand;

/// A value that stands for a list of entries, each of which bears the number of the pass that added it.
pub trait Standing {
    /// What stands in the list. Contracts alone speak of it: no value of it need be made.
    type Entry;

    // Of the value that the turn was made with, the entries since, and the value now.
    ghost stands: { Self → List Self.Entry → Self → Type 0 };

    // The number of the pass that added an entry.
    ghost bears: { Self.Entry → ℕ };
}

/// Names for contracts the entries that a hold has added. A caller of [`Turn::leave`](crate::Turn::leave) passes
/// `Brand`, and picks the entries in its proof.
pub trait Adds<E> {
    ghost added: { List E };
}

impl<E> Adds<E> for Brand {
    ghost use Rattle.std.specs.Prelude.{[]};

    ghost added = { [] };
}
