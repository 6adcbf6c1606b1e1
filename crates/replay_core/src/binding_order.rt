//! The order in which labels were bound, as contracts see it.
ghost use Rattle.std.specs.Prelude.{◌≡◌, ◌++◌, ◌∷◌, [], List};
ghost use Rattle.replay_core.specs.declared.bindings.Binding.{Binding};

use crate::bindings::Binding;
use std::marker::{Model, PhantomData};

/// Bindings in the order in which they were made, for contracts alone (`list`): they have no bytes,
/// and nothing reads them when the program runs, which finds bindings by their labels.
pub(crate) struct BindingOrder {
    marker: PhantomData<()>,
    pub(crate) ghost list: { List Binding },
}

impl Model for BindingOrder {
    ghost use base.Fml.{ftrue};

    ghost also_owns = { λ _. ftrue };
}

impl BindingOrder {
    // An order owns nothing, so it may be that of any bindings.
    fn any() -> BindingOrder
        ghost list: { List Binding }
        ensures { result.list ≡ list }
    {
        BindingOrder {
            marker: PhantomData,
        }
    }

    // The order of bindings that these show.
    fn of(_before: &BindingOrder, _binding: &Binding) -> BindingOrder
        ghost list: { List Binding }
        ensures { result.list ≡ list }
    {
        BindingOrder::any()
    }

    // The order of two lists of bindings that these show.
    fn of_both(_first: &BindingOrder, _second: &BindingOrder) -> BindingOrder
        ghost list: { List Binding }
        ensures { result.list ≡ list }
    {
        BindingOrder::any()
    }

    /// No binding.
    pub(crate) fn none() -> BindingOrder
        ensures { result.list ≡ [] }
    {
        BindingOrder::any()
    }

    /// These, and one more behind them.
    pub(crate) fn grown(&self, binding: &Binding) -> BindingOrder
        ensures { result.list ≡ self.now.list ++ binding.now ∷ [] }
    {
        BindingOrder::of(self, binding)
    }

    /// These, and others behind them.
    pub(crate) fn joined(&self, more: &BindingOrder) -> BindingOrder
        ensures { result.list ≡ self.now.list ++ more.now.list }
    {
        BindingOrder::of_both(self, more)
    }
}

impl Drop for BindingOrder {
    fn drop(self) {
        let Self { marker: _ } = self;
    }
}
