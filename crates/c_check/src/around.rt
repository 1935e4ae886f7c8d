//! What a statement stands in.
#![tactic(auto)]

ghost use Rattle.std.specs.Prelude.{◌≡◌};
ghost use Rattle.c_check.specs.CodeViews.{around_view};
ghost use Rattle.c_unit_typing.specs.Units as units;

use cc_base::TypeId;

/// The function and the loops and `switch`es around a statement.
#[derive(Clone, Copy)]
pub(crate) struct Around {
    /// The result of the function.
    pub(crate) result: TypeId,
    /// Whether a loop, and whether a loop or a `switch`, stands around it.
    pub(crate) in_loop: bool,
    pub(crate) breakable: bool,
}

impl Around {
    pub(crate) fn in_a_loop(self) -> Around
        ensures { around_view result ≡ units.in_a_loop (around_view self) }
    {
        Around {
            in_loop: true,
            breakable: true,
            ..self
        }
    }

    pub(crate) fn in_a_switch(self) -> Around
        ensures { around_view result ≡ units.in_a_switch (around_view self) }
    {
        Around {
            breakable: true,
            ..self
        }
    }
}
