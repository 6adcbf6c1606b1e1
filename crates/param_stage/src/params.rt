//! The two maps.
ghost use Rattle.std.specs.Prelude.{◌≡◌, [], ◌<◌, Some, IfOk, OnOk, OnErr, length, slice_get, option_copied};
ghost use Rattle.std.specs.Option.{option_to_list};
ghost use Rattle.kind_tables.specs.SceneObjects.{object_in, objects_of, value_named, with_value, without_value};
ghost use Rattle.param_stage.specs.Params.{object_under, named, Accounts};

use crate::handles::{HandleList, Named};
use crate::objects::{self, Values};
use dev_types::{Handle, Name, NoMemory, Value};
use kind_tables::object_in;
use std::alloc::{AllocError, Global};
use std::collections::BTreeMap;
use std::marker::Model;

/// The parameters of one object: values by name, as they are set, and as they were committed last (ANARI 1.0
/// Specification, object parameters and commits).
#[derive(Drop)]
pub struct Params {
    staged: Values,
    committed: Values,
}

impl Model for Params {
    ghost use Rattle.param_stage.specs.Params.{ParamMaps};

    ghost Value = { ParamMaps };

    ghost view = { λ p. record {
      staged = p.staged.entries;
      committed = p.committed.entries;
    } };
}

impl Params {
    /// No parameters.
    pub fn new(alloc: Global) -> Params
        ensures staged { result.staged ≡ [] }
        ensures committed { result.committed ≡ [] }
    {
        Params {
            staged: BTreeMap::new(alloc),
            committed: BTreeMap::new(alloc),
        }
    }

    /// Stages `v` under the name, in the place of a value that may be there.
    ///
    /// # Errors
    /// `NoMemory`; all is then as it was.
    pub fn set(&mut self, alloc: Global, name: &Name, v: &Value) -> Result<Named, NoMemory>
        ensures maps { OnOk result (self.new
            ≡ record self.old { staged = with_value name.now v.now self.old.staged }) }

        // What the value names is added, and what the value before it named is gone.
        ensures added { IfOk result (λ told. told.added ≡ option_to_list (object_in v.now)) }
        ensures gone { IfOk result (λ told. told.gone ≡ object_under name.now self.old.staged) }
        ensures counts { IfOk result (λ told. Accounts self.old self.new told.added told.gone) }
        ensures err { OnErr result (self.new ≡ self.old) }
    {
        let told = Named {
            added: objects::one_or_none(alloc, object_in(v))?,
            gone: objects::object_under(alloc, name, &self.staged)?,
        };
        self.staged
            .insert(name.copied(), v.copied())
            .map_err(AllocError::from)?;
        Ok(told)
    }

    /// Takes the value under the name from the staged ones; a name without a value is no fault.
    ///
    /// # Errors
    /// `NoMemory`; all is then as it was.
    pub fn unset(&mut self, alloc: Global, name: &Name) -> Result<Named, NoMemory>
        ensures maps { OnOk result (self.new
            ≡ record self.old { staged = without_value name.now self.old.staged }) }
        ensures added { IfOk result (λ told. told.added ≡ []) }
        ensures gone { IfOk result (λ told. told.gone ≡ object_under name.now self.old.staged) }
        ensures counts { IfOk result (λ told. Accounts self.old self.new told.added told.gone) }
        ensures err { OnErr result (self.new ≡ self.old) }
    {
        let gone = objects::object_under(alloc, name, &self.staged)?;
        self.staged.remove(name);
        Ok(Named {
            added: HandleList::of(Vec::new(alloc)),
            gone,
        })
    }

    /// Takes all staged values away.
    ///
    /// # Errors
    /// `NoMemory`; all is then as it was.
    pub fn unset_all(&mut self, alloc: Global) -> Result<Named, NoMemory>
        ensures maps { OnOk result (self.new ≡ record self.old { staged = [] }) }
        ensures added { IfOk result (λ told. told.added ≡ []) }
        ensures gone { IfOk result (λ told. told.gone ≡ objects_of self.old.staged) }
        ensures counts { IfOk result (λ told. Accounts self.old self.new told.added told.gone) }
        ensures err { OnErr result (self.new ≡ self.old) }
    {
        let gone = objects::objects_of(alloc, &self.staged)?;
        self.staged.clear();
        Ok(Named {
            added: HandleList::of(Vec::new(alloc)),
            gone,
        })
    }

    /// Makes the committed values the staged ones.
    ///
    /// # Errors
    /// `NoMemory`; all is then as it was.
    pub fn commit(&mut self, alloc: Global) -> Result<Named, NoMemory>
        ensures maps { OnOk result (self.new
            ≡ record self.old { committed = self.old.staged }) }
        ensures added { IfOk result (λ told. told.added ≡ objects_of self.old.staged) }
        ensures gone { IfOk result (λ told. told.gone ≡ objects_of self.old.committed) }
        ensures counts { IfOk result (λ told. Accounts self.old self.new told.added told.gone) }
        ensures err { OnErr result (self.new ≡ self.old) }
    {
        let told = Named {
            added: objects::objects_of(alloc, &self.staged)?,
            gone: objects::objects_of(alloc, &self.committed)?,
        };
        self.committed = objects::copied(&self.staged)?;
        Ok(told)
    }

    /// The committed value under the name; `None` exactly where there is none.
    pub fn committed(&self, name: &Name) -> Option<&Value>
        ensures { option_copied result ≡ value_named name.now self.now.committed }
    {
        self.committed.get(name)
    }

    /// The staged value under the name; `None` exactly where there is none.
    pub fn staged(&self, name: &Name) -> Option<&Value>
        ensures { option_copied result ≡ value_named name.now self.now.staged }
    {
        self.staged.get(name)
    }

    /// How many staged and committed entries name an object.
    pub fn named_len(&self) -> u64
        ensures { result ≡ length (named self.now) }
    {
        objects::objects_len(&self.staged) as u64 + objects::objects_len(&self.committed) as u64
    }

    /// The object that is named by entry `i` of those that name one, counted from 0: the staged ones first,
    /// each by rising names.
    pub fn named_at(&self, i: u64) -> Handle
        requires { i < length (named self.now) }
        ensures { slice_get (named self.now) i ≡ Some result }
    {
        let staged = objects::objects_len(&self.staged);
        let found = match (i as usize).checked_sub(staged) {
            None => objects::nth_object(&self.staged, i as usize),
            Some(later) => objects::nth_object(&self.committed, later),
        };
        match found {
            Some(handle) => handle,
            None => unreachable!(),
        }
    }
}
