//! What labels stand for.
ghost use Rattle.std.specs.Prelude.{◌≡◌, ◌++◌, ◌∷◌, [], IfOk, None, OnErr, OnOk};
ghost use Rattle.std.specs.BTreeMap.{is_at};
ghost use Rattle.std.specs.Cmp.Lexicographic.{slice_cmp};
ghost use Rattle.std.specs.Map.{lookup};
ghost use Rattle.std.specs.Ordering.{nat_cmp};
ghost use Rattle.std.specs.Option.{option_copied, option_to_list};
ghost use Rattle.replay_core.specs.Found.{Adds, Joins, Keeps, first_known, object_of};
ghost use Rattle.replay_core.specs.Labels.{is_known};
ghost use Rattle.replay_core.specs.Views.{kept_apart, meaning_of};

use crate::binding_order::BindingOrder;
use dev_types::{Handle, Name, NoMemory};
use std::alloc::{AllocError, Global};
use std::collections::BTreeMap;
use std::marker::Model;

/// A label with the object that its creation made, and the phase and the caller of the creation.
#[derive(Drop)]
pub struct Binding {
    pub label: Name,
    pub handle: Handle,
    pub phase: u64,
    pub caller: u32,
}

/// Bindings of one label, in the order in which they were made: a trace that was read has one.
#[derive(Drop)]
struct BindingList {
    bindings: Vec<Binding>,
}

/// What labels were bound to. Contracts see all bindings in the order in which they were made; a
/// label is looked up in an ordered map.
#[derive(Drop)]
pub struct Bindings {
    by_label: BTreeMap<Name, BindingList>,
    order: BindingOrder,
}

/// What labels stand for to a caller in a phase: it knows what was bound in earlier phases, and what
/// it bound itself, which may be kept apart.
#[derive(Drop)]
pub struct Labels<'a> {
    pub bound: &'a Bindings,
    pub own: Option<&'a Bindings>,
    pub phase: u64,
    pub caller: u32,
}

impl Model for BindingList {
    ghost use Rattle.std.specs.Prelude.{List};
    ghost use Rattle.replay_core.specs.declared.bindings.Binding.{Binding};

    ghost Value = { List Binding };

    ghost view = { λ l. l.bindings.items };
}

impl Model for Bindings {
    ghost use Rattle.std.specs.Prelude.{List};
    ghost use Rattle.replay_core.specs.Found.{AreFound};
    ghost use Rattle.replay_core.specs.declared.bindings.Binding.{Binding};

    ghost Value = { List Binding };

    ghost view = { λ b. b.order.list };

    ghost invariant = { λ b. AreFound b.by_label.entries b.order.list };
}

impl Binding {
    /// Whether a caller knows the binding in a phase.
    fn is_known(&self, phase: u64, caller: u32) -> bool
        ensures { result ≡ is_known phase caller self.now }
    {
        self.phase < phase || (self.phase == phase && self.caller == caller)
    }
}

impl BindingList {
    /// One binding. The only error is want of memory.
    fn of(alloc: Global, binding: Binding) -> Result<BindingList, AllocError>
        ensures { IfOk result (λ list. list ≡ binding ∷ []) }
    {
        let mut bindings = Vec::new(alloc);
        bindings.push(binding)?;
        Ok(BindingList { bindings })
    }

    /// Adds bindings behind the others. The only error is want of memory.
    fn append(&mut self, more: BindingList) -> Result<(), NoMemory>
        ensures appended { OnOk result (self.new ≡ self.old ++ more) }
        ensures kept { OnErr result (self.new ≡ self.old) }
    {
        let BindingList { mut bindings } = more;
        match self.bindings.append(&mut bindings) {
            Ok(()) => Ok(()),
            Err(_) => Err(NoMemory),
        }
    }

    fn as_slice(&self) -> &[Binding]
        ensures { result.now ≡ self.now }
    {
        self.bindings.as_slice()
    }
}

impl Bindings {
    /// No label is bound. It takes no memory.
    pub fn new(alloc: Global) -> Bindings
        ensures { result ≡ [] }
    {
        Bindings {
            by_label: BTreeMap::new(alloc),
            order: BindingOrder::none(),
        }
    }

    /// The object that a label stands for to a caller in a phase, if it knows the label.
    pub fn handle(&self, phase: u64, caller: u32, label: &Name) -> Option<Handle>
        ensures { result ≡ object_of self.now phase caller label.now }
    {
        match self.by_label.get(label) {
            Some(list) => first_known(list.as_slice(), phase, caller),
            None => None,
        }
    }

    /// Binds a label once more. The only error is want of memory; then nothing more is bound.
    pub fn bind(&mut self, alloc: Global, binding: Binding) -> Result<(), NoMemory>
        ensures bound { OnOk result (self.new ≡ self.old ++ binding ∷ []) }
        ensures refused { OnErr result (self.new ≡ self.old) }
    {
        let order = self.order.grown(&binding);
        let label = binding.label.copied();
        let list = BindingList::of(alloc, binding)?;
        add_list(&mut self.by_label, label, list)?;
        self.order = order;
        Ok(())
    }

    /// Binds what a reply gave, if it gave anything. The only error is want of memory; then nothing
    /// more is bound.
    pub fn bind_some(&mut self, alloc: Global, binding: Option<Binding>) -> Result<(), NoMemory>
        ensures bound { OnOk result (self.new ≡ self.old ++ option_to_list binding) }
        ensures refused { OnErr result (self.new ≡ self.old) }
    {
        match binding {
            Some(binding) => self.bind(alloc, binding),
            None => Ok(()),
        }
    }

    /// These bindings, and behind them others. The only error is want of memory.
    pub fn joined(self, more: Bindings) -> Result<Bindings, NoMemory>
        ensures { IfOk result (λ all. all ≡ self ++ more) }
    {
        let order = self.order.joined(&more.order);
        let Bindings {
            mut by_label,
            order: _first,
        } = self;
        let Bindings {
            by_label: lists,
            order: _second,
        } = more;
        add_lists(&mut by_label, lists)?;
        Ok(Bindings { by_label, order })
    }
}

impl<'a> Labels<'a> {
    /// The object that the label stands for among those that the caller bound itself, where these are
    /// kept apart.
    fn own_handle(&self, label: &Name) -> Option<Handle>
        ensures { result ≡ object_of (kept_apart (option_copied self.now.own)) self.now.phase
            self.now.caller label.now }
    {
        match self.own {
            Some(own) => own.handle(self.phase, self.caller, label),
            None => None,
        }
    }

    /// The object that the label stands for; handle 0 where the caller does not know it.
    pub fn handle(&self, label: &Name) -> Handle
        ensures { result ≡ meaning_of self.now label.now }
    {
        match self.bound.handle(self.phase, self.caller, label) {
            Some(handle) => handle,
            None => self.own_handle(label).unwrap_or(Handle(0)),
        }
    }
}

/// Puts the first bindings under a label. The only error is want of memory.
fn add_first(
    by_label: &mut BTreeMap<Name, BindingList>,
    label: Name,
    list: BindingList,
) -> Result<(), NoMemory>
    requires { lookup (is_at (slice_cmp nat_cmp label)) by_label.old.entries ≡ None }
    ensures added { OnOk result (Adds by_label.old.entries label list by_label.new.entries) }
    ensures kept { OnErr result (Keeps by_label.old.entries by_label.new.entries) }
{
    match by_label.insert(label, list) {
        Ok(_) => Ok(()),
        Err(_) => Err(NoMemory),
    }
}

/// Puts bindings under a label, behind those that stand there. The only error is want of memory.
fn add_list(
    by_label: &mut BTreeMap<Name, BindingList>,
    label: Name,
    list: BindingList,
) -> Result<(), NoMemory>
    ensures added { OnOk result (Adds by_label.old.entries label list by_label.new.entries) }
    ensures kept { OnErr result (Keeps by_label.old.entries by_label.new.entries) }
{
    let Some(there) = by_label.get_mut(&label) else {
        return add_first(by_label, label, list);
    };
    there.append(list)
}

/// Puts the bindings of each label behind those that stand under it. The only error is want of
/// memory.
fn add_lists(
    by_label: &mut BTreeMap<Name, BindingList>,
    more: BTreeMap<Name, BindingList>,
) -> Result<(), NoMemory>
    ensures { OnOk result (Joins by_label.old.entries more.entries by_label.new.entries) }
{
    let mut left = more;
    while let Some((label, list)) = left.pop_first() {
        add_list(by_label, label, list)?;
    }
    Ok(())
}

/// The object of the first binding of a list that a caller knows in a phase, if it knows one.
fn first_known(bound: &[Binding], phase: u64, caller: u32) -> Option<Handle>
    ensures { result ≡ first_known bound.now phase caller }
{
    for binding in bound {
        if binding.is_known(phase, caller) {
            return Some(binding.handle);
        }
    }
    None
}
