//! What is kept of an object beside its array and its counts.
ghost use Rattle.std.specs.Prelude.{◌≡◌, ◌+◌, ◌==◌, ◌<◌, ◌≤◌, ◌^◌, [], not, IfOk, OnOk, OnErr, length, option_copied};
ghost use Rattle.std.specs.List.{filter};
ghost use Rattle.std.specs.Option.{option_to_list};
ghost use Rattle.kind_tables.specs.SceneObjects.{object_in, objects_of, value_named, with_value};
ghost use Rattle.param_stage.specs.Params.{Accounts};

use crate::loans::ParameterLoan;
use dev_types::{Channel, Name, NoMemory, Value};
use kind_tables::Kind;
use param_stage::{Named, Params};
use std::alloc::{AllocError, Global};
use std::marker::Model;

/// What a frame has to show (ANARI 1.0 Specification, Frame), with the ticket of the render.
#[derive(Clone, Copy, Debug, PartialEq, Eq)]
pub enum Shows {
    Nothing,
    /// A picture that is being rendered.
    Flight(u64),
    Picture(u64),
}

/// What is kept of an object beside its array and its counts: `holds` flights keep it alive.
#[derive(Drop)]
pub struct Slot {
    pub kind: Kind,
    pub params: Params,
    pub loans: Vec<ParameterLoan>,
    pub shows: Shows,
    pub channels: Vec<(Channel, u64)>,
    pub holds: u64,
}

impl Model for Slot {
    ghost use Rattle.object_store.specs.Phases.{phase_of};
    ghost use Rattle.object_store.specs.Parts.{Part};

    ghost Value = { Part };

    ghost view = { λ s. record {
      kind = s.kind;
      params = s.params;
      loans = s.loans.items;
      phase = phase_of s.shows;
      channels = s.channels.items;
      holds = s.holds;
    } };
}

impl Slot {
    ghost use Rattle.object_store.specs.Parts.{commit_in, end_in, fresh_part, hold_in, lend_in, map_in, set_in, show_in, unhold_in, unmap_in, unset_all_in, unset_in};
    ghost use Rattle.object_store.specs.Phases.{phase_of};

    /// What is kept of an object as it is made.
    pub fn new(alloc: Global, kind: Kind) -> Slot
        ensures { result ≡ fresh_part kind }
    {
        Slot {
            kind,
            params: Params::new(alloc),
            loans: Vec::new(alloc),
            shows: Shows::Nothing,
            channels: Vec::new(alloc),
            holds: 0,
        }
    }

    pub fn kind(&self) -> Kind
        ensures { result ≡ self.now.kind }
    {
        self.kind
    }

    pub fn shows(&self) -> Shows
        ensures { phase_of result ≡ self.now.phase }
    {
        self.shows
    }

    pub fn channels(&self) -> &[(Channel, u64)]
        ensures { result.now ≡ self.now.channels }
    {
        &self.channels
    }

    pub fn loans(&self) -> &[ParameterLoan]
        ensures { result.now ≡ self.now.loans }
    {
        &self.loans
    }

    pub fn holds(&self) -> u64
        ensures { result ≡ self.now.holds }
    {
        self.holds
    }

    pub fn params(&self) -> &Params
        ensures { result.now ≡ self.now.params }
    {
        &self.params
    }

    /// The committed value of a parameter, if there is one.
    pub fn committed(&self, name: &Name) -> Option<&Value>
        ensures { option_copied result ≡ value_named name.now self.now.params.committed }
    {
        self.params.committed(name)
    }

    /// Stages a value.
    pub fn set(&mut self, alloc: Global, name: &Name, v: &Value) -> Result<Named, NoMemory>
        ensures part { OnOk result (self.new ≡ record self.old {
          params = set_in name.now v.now
              self.old.params;
        }) }
        ensures added { IfOk result (λ told. told.added ≡ option_to_list (object_in v.now)) }
        ensures counts { IfOk result (λ told. Accounts self.old.params self.new.params told.added
            told.gone) }
        ensures err { OnErr result (self.new ≡ self.old) }
    {
        self.params.set(alloc, name, v)
    }

    /// Takes a staged value away.
    pub fn unset(&mut self, alloc: Global, name: &Name) -> Result<Named, NoMemory>
        ensures part { OnOk result (self.new ≡ record self.old {
          params = unset_in name.now
              self.old.params;
        }) }
        ensures added { IfOk result (λ told. told.added ≡ []) }
        ensures counts { IfOk result (λ told. Accounts self.old.params self.new.params told.added
            told.gone) }
        ensures err { OnErr result (self.new ≡ self.old) }
    {
        self.params.unset(alloc, name)
    }

    /// Takes all staged values away.
    pub fn unset_all(&mut self, alloc: Global) -> Result<Named, NoMemory>
        ensures part { OnOk result (self.new ≡ record self.old {
          params = unset_all_in
              self.old.params;
        }) }
        ensures added { IfOk result (λ told. told.added ≡ []) }
        ensures counts { IfOk result (λ told. Accounts self.old.params self.new.params told.added
            told.gone) }
        ensures err { OnErr result (self.new ≡ self.old) }
    {
        self.params.unset_all(alloc)
    }

    /// Makes the committed values the staged ones.
    pub fn commit(&mut self, alloc: Global) -> Result<Named, NoMemory>
        ensures part { OnOk result (self.new ≡ record self.old {
          params = commit_in self.old.params;
        }) }
        ensures added { IfOk result (λ told. told.added ≡ objects_of self.old.params.staged) }
        ensures counts { IfOk result (λ told. Accounts self.old.params self.new.params told.added
            told.gone) }
        ensures err { OnErr result (self.new ≡ self.old) }
    {
        self.params.commit(alloc)
    }

    /// Shows something else.
    pub fn show(&mut self, shows: Shows)
        ensures { self.new ≡ show_in (phase_of shows) self.old }
    {
        self.shows = shows;
    }

    /// Notes that a channel is mapped.
    pub fn map_channel(&mut self, channel: Channel, number: u64) -> Result<(), NoMemory>
        ensures ok { OnOk result (self.new ≡ map_in channel number self.old) }
        ensures err { OnErr result (self.new ≡ self.old) }
    {
        self.channels
            .push((channel, number))
            .map_err(AllocError::from)?;
        Ok(())
    }

    /// The channels with this number are mapped no more; tells how many they were.
    pub fn unmap_channel(&mut self, number: u64) -> u64
        ensures part { self.new ≡ unmap_in number self.old }
        ensures count { result + length self.new.channels ≡ length self.old.channels }
    {
        drop_channel(&mut self.channels, number)
    }

    /// Notes an array that is written for a parameter.
    pub fn lend(&mut self, loan: ParameterLoan) -> Result<(), NoMemory>
        ensures ok { OnOk result (self.new ≡ lend_in loan self.old) }
        ensures err { OnErr result (self.new ≡ self.old) }
    {
        self.loans.push(loan).map_err(AllocError::from)?;
        Ok(())
    }

    /// The arrays with this number are written no more; tells how many they were.
    pub fn end_loan(&mut self, number: u64) -> u64
        ensures part { self.new ≡ end_in number self.old }
        ensures count { result + length self.new.loans ≡ length self.old.loans }
    {
        drop_loan(&mut self.loans, number)
    }

    /// One flight more holds the object.
    pub fn hold(&mut self)
        requires { self.old.holds < 2 ^ 40 }
        ensures { self.new ≡ hold_in self.old }
    {
        self.holds += 1;
    }

    /// One flight less holds the object.
    pub fn unhold(&mut self)
        requires { 1 ≤ self.old.holds }
        ensures { self.new ≡ unhold_in self.old }
    {
        self.holds -= 1;
    }
}

/// Takes the channels with this number away; tells how many they were.
fn drop_channel(channels: &mut Vec<(Channel, u64)>, number: u64) -> u64
    ensures kept { channels.new.items ≡ filter (λ m. not (m.1 == number)) channels.old.items }
    ensures count { result + length channels.new.items ≡ length channels.old.items }
{
    let all = channels.len();
    channels.retain(|mapped| mapped.1 != number);
    (all - channels.len()) as u64
}

/// Takes the loans with this number away; tells how many they were.
fn drop_loan(loans: &mut Vec<ParameterLoan>, number: u64) -> u64
    ensures kept { loans.new.items ≡ filter (λ loan. not (loan.number == number)) loans.old.items }
    ensures count { result + length loans.new.items ≡ length loans.old.items }
{
    let all = loans.len();
    loans.retain(|loan| loan.number != number);
    (all - loans.len()) as u64
}
