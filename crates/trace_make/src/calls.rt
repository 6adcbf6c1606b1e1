//! Lists of the calls that a trace makes, as JSON.
ghost use Rattle.std.specs.Prelude.{◌≡◌, [], ◌∷◌, ◌++◌, pos, IfOk, OnOk, map};
ghost use Rattle.serde_json.specs.Data.{string};
ghost use Rattle.serde_json.specs.View.{view};
ghost use Rattle.trace_make.specs.Calls.{whole, wholes, words, list, new_call, new_of_call, array_call, set_call, commit_call, release_call, render_call, wait_call, look_call, written};

use crate::forms;
use serde_json::{Value, json};
use std::alloc::{AllocError, Global};

/// The calls of one caller, in their order.
#[derive(Drop)]
pub(crate) struct Calls {
    alloc: Global,
    calls: Vec<Value>,
}

impl Calls {
    pub(crate) fn new(alloc: Global) -> Calls
        ensures { written result ≡ [] }
    {
        Calls {
            alloc,
            calls: Vec::new(alloc),
        }
    }

    /// Makes an object of the subtype that is taken where none is named.
    pub(crate) fn make(&mut self, label: &str, ty: &str) -> Result<(), AllocError>
        ensures { OnOk result (written self.new ≡ written self.old ++ new_call label.now ty.now ∷ []) }
    {
        let call = forms::new(self.alloc, label, ty)?;
        self.push(call)
    }

    /// Makes an object of a subtype.
    pub(crate) fn make_of(&mut self, label: &str, ty: &str, subtype: &str) -> Result<(), AllocError>
        ensures { OnOk result (written self.new ≡ written self.old ++ new_of_call label.now ty.now subtype.now ∷ []) }
    {
        let call = forms::new_of(self.alloc, label, ty, subtype)?;
        self.push(call)
    }

    /// Makes an array of `count` elements.
    pub(crate) fn make_array(
        &mut self,
        label: &str,
        elem: &str,
        count: u64,
        origin: &str,
        user: u64,
        elements: Value,
    ) -> Result<(), AllocError>
        ensures { OnOk result (written self.new ≡ written self.old ++ array_call label.now elem.now count origin.now user (view elements) ∷ []) }
    {
        let call = forms::array(self.alloc, label, elem, count, origin, user, elements)?;
        self.push(call)
    }

    /// Sets a parameter to a label, or to a type by its name.
    pub(crate) fn set_word(
        &mut self,
        object: &str,
        name: &str,
        ty: &str,
        word: &str,
    ) -> Result<(), AllocError>
        ensures { OnOk result (written self.new ≡ written self.old ++ set_call object.now name.now ty.now (string word.now) ∷ []) }
    {
        let value = json!(in self.alloc; word)?;
        self.set(object, name, ty, value)
    }

    /// Sets a parameter to a value of one component.
    pub(crate) fn set_number(
        &mut self,
        object: &str,
        name: &str,
        ty: &str,
        number: u32,
    ) -> Result<(), AllocError>
        ensures { OnOk result (written self.new ≡ written self.old ++ set_call object.now name.now ty.now (whole (pos number)) ∷ []) }
    {
        self.set(object, name, ty, Value::from(number))
    }

    /// Sets a parameter to a value of several components.
    pub(crate) fn set_numbers(
        &mut self,
        object: &str,
        name: &str,
        ty: &str,
        numbers: &[i64],
    ) -> Result<(), AllocError>
        ensures { OnOk result (written self.new ≡ written self.old ++ set_call object.now name.now ty.now (wholes numbers.now) ∷ []) }
    {
        let value = list_of_numbers(self.alloc, numbers)?;
        self.set(object, name, ty, value)
    }

    fn set(&mut self, object: &str, name: &str, ty: &str, value: Value) -> Result<(), AllocError>
        ensures { OnOk result (written self.new ≡ written self.old ++ set_call object.now name.now ty.now (view value) ∷ []) }
    {
        let call = forms::set(self.alloc, object, name, ty, value)?;
        self.push(call)
    }

    pub(crate) fn commit(&mut self, object: &str) -> Result<(), AllocError>
        ensures { OnOk result (written self.new ≡ written self.old ++ commit_call object.now ∷ []) }
    {
        let call = forms::commit(self.alloc, object)?;
        self.push(call)
    }

    pub(crate) fn release(&mut self, object: &str) -> Result<(), AllocError>
        ensures { OnOk result (written self.new ≡ written self.old ++ release_call object.now ∷ []) }
    {
        let call = forms::release(self.alloc, object)?;
        self.push(call)
    }

    pub(crate) fn render(&mut self, frame: &str) -> Result<(), AllocError>
        ensures { OnOk result (written self.new ≡ written self.old ++ render_call frame.now ∷ []) }
    {
        let call = forms::render(self.alloc, frame)?;
        self.push(call)
    }

    /// Waits until a frame is done.
    pub(crate) fn wait(&mut self, frame: &str) -> Result<(), AllocError>
        ensures { OnOk result (written self.new ≡ written self.old ++ wait_call frame.now ∷ []) }
    {
        let call = forms::wait(self.alloc, frame)?;
        self.push(call)
    }

    /// Maps a channel of a frame, and unmaps it with no call between.
    pub(crate) fn look(&mut self, frame: &str, channel: &str) -> Result<(), AllocError>
        ensures { OnOk result (written self.new ≡ written self.old ++ look_call frame.now channel.now ∷ []) }
    {
        let call = forms::look(self.alloc, frame, channel)?;
        self.push(call)
    }

    fn push(&mut self, call: Value) -> Result<(), AllocError>
        ensures { OnOk result (written self.new ≡ written self.old ++ view call ∷ []) }
    {
        serde_json::push(&mut self.calls, call)
    }

    /// The calls as one JSON list.
    pub(crate) fn into_value(self) -> Value
        ensures { view result ≡ list (written self) }
    {
        Value::Array(self.calls)
    }
}

pub(crate) fn list_of_numbers(alloc: Global, numbers: &[i64]) -> Result<Value, AllocError>
    ensures { IfOk result (λ v. view v ≡ wholes numbers.now) }
{
    let mut values = Vec::new(alloc);
    for number in numbers {
        values.push(whole_number(number))?;
    }
    Ok(Value::Array(values))
}

fn whole_number(number: &i64) -> Value
    ensures { view result ≡ whole number.now }
{
    Value::from(*number)
}

pub(crate) fn pair(alloc: Global, first: &str, second: &str) -> Result<Value, AllocError>
    ensures { IfOk result (λ v. view v ≡ words (first.now ∷ second.now ∷ [])) }
{
    json!(in alloc; [first, second])
}
