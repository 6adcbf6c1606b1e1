//! The objects of a device, as they are kept.
ghost use Rattle.std.specs.Prelude.{IfSome, ◌*◌, ◌==◌, IsTrue, filter, not, ◌≡◌, [], ◌∷◌, ◌++◌, ◌≤◌, ◌^◌, None, IfOk, OnOk, OnErr, length, option_copied};
ghost use Rattle.dev_types.specs.Blocks.{FitsBlock};
ghost use Rattle.dev_types.specs.DataTypes.{byte_size, is_element_type};
ghost use Rattle.dev_types.specs.declared.data_types.DataType.TheVariants as ty;
ghost use Rattle.dev_types.specs.declared.values.Value.TheVariants as Value;
ghost use Rattle.seq_model.specs.Refusals.{most_bytes};
ghost use Rattle.std.specs.Option.{is_some, option_map};
ghost use Rattle.seq_model.specs.State.{array_loan, is_in_flight};
ghost use Rattle.scene_read.specs.Reading.{IsCounted, lent as lent_block};
ghost use Rattle.seq_model.specs.Steps.{change_array, commit, end_flight, end_parameter_loan, fresh, holding, lend_parameter, lent, map_channel, set_phase, set_staged, unmap_channel};
ghost use Rattle.kind_tables.specs.SceneObjects.{value_named, with_value, without_value};

use byte_view::Strided;
use dev_types::{Bytes, Channel, DataType, Handle, Name, NoMemory, Origin, Value};
use kind_tables::Kind;
use std::alloc::{AllocError, Global};
use std::collections::BTreeMap;
use std::marker::Model;

/// What a frame has to show (ANARI 1.0 Specification, Frame), with the ticket of the render.
#[derive(Clone, Copy, Debug, PartialEq, Eq)]
pub enum Shows {
    Nothing,
    /// A picture that is being rendered.
    Flight(u64),
    Picture(u64),
}

/// The values of parameters, by their names.
pub type Values = BTreeMap<Name, Value>;

/// A new array that an application writes for a parameter.
#[derive(Drop)]
pub struct ParameterLoan {
    pub number: u64,
    pub name: Name,
    pub elem: DataType,
    pub count: u64,
    ghost element: { IsTrue (is_element_type elem) },
    ghost bounded: { count * byte_size elem ≤ most_bytes },
}

impl Model for ParameterLoan {
    ghost use Rattle.seq_model.specs.State.{ParameterLoan as Loan};

    ghost Value = { Loan };

    ghost view = { λ l. record { number = l.number; name = l.name; elem = l.elem; count = l.count } };
}

/// The memory of an array, and the number of the loan that is out, if one is.
#[derive(Drop)]
pub struct Array {
    pub elem: DataType,
    pub count: u64,
    pub stride: u64,
    pub bytes: Bytes,
    pub origin: Origin,
    pub loan: Option<u64>,
    ghost fits: { FitsBlock elem stride count (length bytes) },
    ghost counted: { count ≤ 2 ^ 28 },
}

impl Model for Array {
    ghost use Rattle.seq_model.specs.State.{ArrayState};

    ghost Value = { ArrayState };

    ghost view = { λ a. record {
      block = record { elem = a.elem; count = a.count; stride = a.stride; bytes = a.bytes };
      origin = a.origin;
      loan = a.loan;
    } };
}

/// An object, with what was staged and committed for it.
#[derive(Drop)]
pub struct Object {
    pub kind: Kind,
    pub staged: Values,
    pub committed: Values,
    pub parameter_loans: Vec<ParameterLoan>,
    pub array: Option<Array>,
    pub shows: Shows,
    pub channels: Vec<(Channel, u64)>,
}

impl Model for Object {
    ghost use Rattle.plain_objects.specs.Shown.{phase_of};
    ghost use Rattle.seq_model.specs.State.{Object as Seen};

    ghost Value = { Seen };

    ghost view = { λ o. record {
      kind = o.kind;
      staged = o.staged.entries;
      committed = o.committed.entries;
      parameter_loans = o.parameter_loans.items;
      array = o.array;
      phase = phase_of o.shows;
      channels = o.channels.items;
    } };
}

impl Array {
    fn lend(&mut self, number: u64)
        ensures { self.new ≡ lent number self.old }
    {
        self.loan = Some(number);
    }

    fn take_back(&mut self, bytes: Bytes)
        requires { length self.old.block.bytes ≡ length bytes }
        ensures { self.new ≡ holding bytes self.old }
    {
        self.bytes = bytes;
        self.loan = None;
    }
}

impl Object {
    ghost use Rattle.plain_objects.specs.Shown.{HasLength, phase_of};

    /// An object as it is made.
    pub fn new(alloc: Global, kind: Kind, array: Option<Array>) -> Object
        ensures { result ≡ fresh kind array }
    {
        Object {
            kind,
            staged: BTreeMap::new(alloc),
            committed: BTreeMap::new(alloc),
            parameter_loans: Vec::new(alloc),
            array,
            shows: Shows::Nothing,
            channels: Vec::new(alloc),
        }
    }

    /// The committed value of a parameter, if there is one.
    pub fn committed(&self, name: &Name) -> Option<&Value>
        ensures { option_copied result ≡ value_named name.now self.now.committed }
    {
        self.committed.get(name)
    }

    /// The elements of the array, at most 2^28, where the object is one.
    pub fn content(&self) -> Option<Strided<'_>>
        ensures value { result ≡ option_map (λ a. lent_block a.block) self.now.array }
        ensures size { IsCounted result }
        ensures fits { IfSome result (λ e. FitsBlock e.ty e.stride e.count (length e.bytes)) }
    {
        let array = self.array.as_ref()?;
        Some(Strided::over(
            array.bytes.as_slice(),
            array.elem,
            array.stride,
            array.count,
        ))
    }

    /// The bytes of the array, where the object is one.
    pub fn bytes(&self) -> Option<&Bytes>
        ensures { option_copied result ≡ option_map (λ a. a.block.bytes) self.now.array }
    {
        let array = self.array.as_ref()?;
        Some(&array.bytes)
    }

    /// Whether the object is an array that is lent.
    pub fn is_lent(&self) -> bool
        ensures { result ≡ is_some (array_loan self.now) }
    {
        match &self.array {
            Some(array) => array.loan.is_some(),
            None => false,
        }
    }

    /// Stages a value.
    pub fn set(&mut self, name: &Name, value: &Value) -> Result<(), NoMemory>
        ensures ok { OnOk result (self.new ≡ set_staged (with_value name.now value.now) self.old) }
        ensures err { OnErr result (self.new ≡ self.old) }
    {
        self.staged
            .insert(name.copied(), value.copied())
            .map_err(AllocError::from)?;
        Ok(())
    }

    /// Takes a staged value away.
    pub fn unset(&mut self, name: &Name)
        ensures { self.new ≡ set_staged (without_value name.now) self.old }
    {
        self.staged.remove(name);
    }

    /// Takes all staged values away.
    pub fn unset_all(&mut self)
        ensures { self.new ≡ set_staged (λ _. []) self.old }
    {
        self.staged.clear();
    }

    /// Makes the committed values the staged ones.
    pub fn commit(&mut self) -> Result<(), NoMemory>
        ensures ok { OnOk result (self.new ≡ commit self.old) }
        ensures err { OnErr result (self.new ≡ self.old) }
    {
        self.committed = copied(&self.staged)?;
        Ok(())
    }

    /// Lends the array, where it is one, under a number.
    pub fn lend(&mut self, number: u64)
        ensures { self.new ≡ change_array (lent number) self.old }
    {
        if let Some(array) = &mut self.array {
            array.lend(number);
        }
    }

    /// Gives the array, where it is one, other bytes, as many as it has; it is lent no more.
    pub fn take_back(&mut self, bytes: Bytes)
        requires { HasLength self.old.array (length bytes) }
        ensures { self.new ≡ change_array (holding bytes) self.old }
    {
        if let Some(array) = &mut self.array {
            array.take_back(bytes);
        }
    }

    /// Notes an array that is written for a parameter.
    pub fn lend_parameter(&mut self, loan: ParameterLoan) -> Result<(), NoMemory>
        ensures ok { OnOk result (self.new ≡ lend_parameter loan self.old) }
        ensures err { OnErr result (self.new ≡ self.old) }
    {
        self.parameter_loans.push(loan).map_err(AllocError::from)?;
        Ok(())
    }

    /// The array with this number is written no more.
    pub fn end_parameter_loan(&mut self, number: u64)
        ensures { self.new ≡ end_parameter_loan number self.old }
    {
        drop_loan(&mut self.parameter_loans, number);
    }

    /// A loan for a parameter has come back: its new array, which has this handle, is the staged value of the
    /// parameter, and the loan is out no more.
    pub fn take_in(&mut self, name: &Name, number: u64, made: Handle) -> Result<(), NoMemory>
        ensures ok { OnOk result (self.new ≡ set_staged (with_value name.now (Value.Object ty.Array1D made)) (end_parameter_loan number self.old)) }
        ensures err { OnErr result (self.new ≡ self.old) }
    {
        self.set(name, &Value::Object(DataType::Array1D, made))?;
        self.end_parameter_loan(number);
        Ok(())
    }

    /// Shows something else.
    pub fn show(&mut self, shows: Shows)
        ensures { self.new ≡ set_phase (phase_of shows) self.old }
    {
        self.shows = shows;
    }

    /// Whether the object is a frame in flight with this ticket.
    pub fn is_in_flight(&self, ticket: u64) -> bool
        ensures { result ≡ is_in_flight ticket self.now }
    {
        match self.shows {
            Shows::Flight(flying) => flying == ticket,
            _ => false,
        }
    }

    /// Ends the flight with this ticket, if the object is its frame.
    #[tactic(auto, unfolding(seq_model::specs::Steps::end_flight))]
    pub fn end_flight(&mut self, ticket: u64, shows: Shows)
        ensures { self.new ≡ end_flight ticket (phase_of shows) self.old }
    {
        if self.is_in_flight(ticket) {
            self.shows = shows;
        }
    }

    /// Notes that a channel is mapped.
    pub fn map_channel(&mut self, channel: Channel, number: u64) -> Result<(), NoMemory>
        ensures ok { OnOk result (self.new ≡ map_channel channel number self.old) }
        ensures err { OnErr result (self.new ≡ self.old) }
    {
        self.channels
            .push((channel, number))
            .map_err(AllocError::from)?;
        Ok(())
    }

    /// The channel with this number is mapped no more.
    pub fn unmap_channel(&mut self, number: u64)
        ensures { self.new ≡ unmap_channel number self.old }
    {
        drop_channel(&mut self.channels, number);
    }
}

/// The same values, in a map of their own.
fn copied(values: &Values) -> Result<Values, AllocError>
    ensures { IfOk result (λ copy. copy.entries ≡ values.now.entries) }
{
    values.clone()
}

/// Takes the loans with this number away.
fn drop_loan(loans: &mut Vec<ParameterLoan>, number: u64)
    ensures { loans.new.items ≡ filter (λ loan. not (loan.number == number)) loans.old.items }
{
    loans.retain(|loan| loan.number != number);
}

/// Takes the channels with this number away.
fn drop_channel(channels: &mut Vec<(Channel, u64)>, number: u64)
    ensures { channels.new.items ≡ filter (λ m. not (m.1 == number)) channels.old.items }
{
    channels.retain(|mapped| mapped.1 != number);
}
