//! A desk at which one caller makes calls on objects, one after the other.
ghost use Rattle.std.specs.Prelude.{◌≡◌, ◌<◌, ◌-◌, ◌^◌, ◌++◌, ◌∷◌, [], IfOk, None, OnOk, length, true, vec_capacity, vec_len};
ghost use Rattle.seq_model.specs.Histories.{rendered};
ghost use Rattle.seq_model.specs.declared.calls.Entry.TheVariants.{Called};
ghost use Rattle.object_steps.specs.Applying.{is_object_call};
ghost use Rattle.object_steps.specs.Carrying.{Brings};
ghost use Rattle.object_tests.specs.Desks.{IsDesk};
ghost use Rattle.object_steps.specs.declared.array_loans.ArrayLoan.TheVariants as loans;

use array_objects::Lent;
use call_answers::Shown;
use dev_types::{
    Bytes, Client, Code, DataType, Handle, Name, NoMemory, Notice, Origin, Refused, Severity,
    Status, Value, encode_value,
};
use object_steps::{ArrayLoan, LentParam, ObjectStore, Records};
use object_store::slots::Shows;
use seq_model::{Call, Entry, Reply};
use std::alloc::Global;
use std::marker::Model;
use std::test::Fail;

/// A client that keeps what it is told.
#[derive(Drop)]
struct Listener {
    heard: Vec<Notice>,
}

impl Client for Listener {
    ghost notices = { λ l. l.heard.items };

    ghost spare = { λ l. vec_capacity l.heard - vec_len l.heard };

    fn reserve(&mut self, _alloc: Global, n: u32) -> Result<(), NoMemory> {
        Ok(self.heard.reserve(n as usize)?)
    }

    fn deleted(&mut self, source: Handle, user: u64, bytes: Bytes) {
        self.heard.push_reserved(Notice::Deleted {
            source,
            user,
            bytes,
        });
    }

    fn let_go(&mut self, source: Handle, user: u64) {
        self.heard.push_reserved(Notice::LetGo { source, user });
    }

    fn status(&mut self, status: Status) {
        self.heard.push_reserved(Notice::Told(status));
    }
}

/// What happened at a desk, where nothing is rendered.
#[derive(Drop)]
struct Happened {
    entries: Vec<Entry>,
}

impl Model for Happened {
    ghost use Rattle.std.specs.Prelude.{vec_capacity};
    ghost use Rattle.object_tests.specs.Desks.{Entered, RendersNothing};

    ghost Value = { Entered };

    ghost view = { λ h. record { entries = h.entries.items; room = vec_capacity h.entries } };

    ghost invariant = { λ h. RendersNothing h.entries.items };
}

impl Happened {
    /// Makes room for one entry.
    fn reserve(&mut self) -> Result<(), NoMemory>
        ensures same { self.new.entries ≡ self.old.entries }
        ensures room { OnOk result (length self.old.entries < self.new.room) }
        ensures short { OnOk result (length self.old.entries < 2 ^ 63) }
    {
        self.entries.reserve(1)?;
        Ok(())
    }

    /// One more call, for which there is room.
    fn enter(&mut self, call: Call, reply: Reply)
        requires room { length self.old.entries < self.old.room }
        requires none { rendered (Called 1 call reply) ≡ None }
        ensures { self.new.entries ≡ self.old.entries ++ Called 1 call reply ∷ [] }
    {
        self.entries.push_reserved(Entry::Called {
            actor: 1,
            call,
            reply,
        });
    }
}

impl Records for Happened {
    ghost history = { λ h. h.entries };

    fn place(&self) -> u64 {
        self.entries.len() as u64 + 1
    }

    fn shown(&self, _h: Handle, _shows: Shows) -> Shown {
        let _entries = &self.entries;
        Shown::Nothing
    }
}

/// The objects, what happened, and who is told of it.
#[derive(Drop)]
pub struct Desk {
    objects: ObjectStore,
    happened: Happened,
    client: Listener,
}

impl Model for Desk {
    ghost use Rattle.seq_model.specs.Histories.{History};
    ghost use Rattle.object_tests.specs.Desks.{IsDesk};
    ghost use Rattle.std.specs.Prelude.{◌-◌, vec_capacity, vec_len};

    ghost Value = { History };

    ghost view = { λ d. d.happened.entries };

    ghost invariant = { λ d. IsDesk d.objects d.happened.entries (vec_capacity d.client.heard
        - vec_len d.client.heard) };
}

pub fn expect(is: bool, what: &'static str) -> Result<(), Fail> {
    if is { Ok(()) } else { Err(what)? }
}

impl Desk {
    pub fn new(alloc: Global) -> Desk {
        Desk {
            objects: ObjectStore::new(alloc),
            happened: Happened {
                entries: Vec::new(alloc),
            },
            client: Listener {
                heard: Vec::new(alloc),
            },
        }
    }

    /// Makes a call; the loan that it hands out, or that comes back.
    fn call(&mut self, alloc: Global, call: Call, with: ArrayLoan) -> Result<ArrayLoan, NoMemory>
        requires object_call { is_object_call call ≡ true }
        requires brings { Brings call with }
    {
        apply(
            &mut self.objects,
            &mut self.happened,
            &mut self.client,
            alloc,
            call,
            with,
        )
    }

    /// Makes a call that brings no loan, and for which none is handed out.
    fn make(&mut self, alloc: Global, call: Call) -> Result<(), Fail>
        requires object_call { is_object_call call ≡ true }
        requires brings { Brings call loans.Nothing }
    {
        lent(self.call(alloc, call, ArrayLoan::Nothing))?.give_up();
        Ok(())
    }

    pub fn create(&mut self, alloc: Global, ty: DataType, subtype: &str) -> Result<(), Fail> {
        let subtype = Name::new(subtype).ok_or("a name")?;
        self.make(alloc, Call::NewObject { ty, subtype })
    }

    /// Makes an array of these values, so many bytes apart.
    pub fn create_array(
        &mut self,
        alloc: Global,
        elem: DataType,
        stride: u64,
        origin: Origin,
        values: &[Value],
    ) -> Result<(), Fail> {
        let count = values.len() as u64;
        let bytes = block_of(alloc, values)?;
        self.make(
            alloc,
            Call::NewArray {
                elem,
                count,
                stride,
                origin,
                bytes,
            },
        )
    }

    /// Makes an array of objects, whose deleter has this word.
    pub fn create_list(
        &mut self,
        alloc: Global,
        elem: DataType,
        user: u64,
        handles: &[u64],
    ) -> Result<(), Fail> {
        let mut values = Vec::new(alloc);
        for h in handles {
            values.push(Value::Object(elem, Handle(*h)))?;
        }
        self.create_array(alloc, elem, 8, Origin::Captured(user), &values)
    }

    pub fn retain(&mut self, alloc: Global, h: u64) -> Result<(), Fail> {
        self.make(alloc, Call::Retain { h: Handle(h) })
    }

    pub fn release(&mut self, alloc: Global, h: u64) -> Result<(), Fail> {
        self.make(alloc, Call::Release { h: Handle(h) })
    }

    pub fn set(&mut self, alloc: Global, h: u64, name: &str, value: Value) -> Result<(), Fail> {
        let name = Name::new(name).ok_or("a name")?;
        let h = Handle(h);
        self.make(alloc, Call::SetParameter { h, name, value })
    }

    /// Stages an object.
    pub fn put(
        &mut self,
        alloc: Global,
        h: u64,
        name: &str,
        ty: DataType,
        object: u64,
    ) -> Result<(), Fail> {
        self.set(alloc, h, name, Value::Object(ty, Handle(object)))
    }

    pub fn unset(&mut self, alloc: Global, h: u64, name: &str) -> Result<(), Fail> {
        let name = Name::new(name).ok_or("a name")?;
        self.make(alloc, Call::UnsetParameter { h: Handle(h), name })
    }

    pub fn unset_all(&mut self, alloc: Global, h: u64) -> Result<(), Fail> {
        self.make(alloc, Call::UnsetAll { h: Handle(h) })
    }

    pub fn commit(&mut self, alloc: Global, h: u64) -> Result<(), Fail> {
        self.make(alloc, Call::Commit { h: Handle(h) })
    }

    /// Maps an array; what is lent, if it is.
    pub fn map(&mut self, alloc: Global, h: u64) -> Result<ArrayLoan, Fail> {
        lent(self.call(alloc, Call::MapArray { h: Handle(h) }, ArrayLoan::Nothing))
    }

    /// Maps a new array for a parameter; what is lent, if it is.
    pub fn map_parameter(
        &mut self,
        alloc: Global,
        h: u64,
        name: &str,
        elem: DataType,
        count: u64,
    ) -> Result<ArrayLoan, Fail> {
        let name = Name::new(name).ok_or("a name")?;
        let h = Handle(h);
        let call = Call::MapParameterArray {
            h,
            name,
            elem,
            count,
        };
        lent(self.call(alloc, call, ArrayLoan::Nothing))
    }

    /// Gives an array back; its loan, if it is refused.
    fn unmap(&mut self, alloc: Global, lent: Lent) -> Result<ArrayLoan, NoMemory> {
        let bytes = match block_with(alloc, lent.bytes()) {
            Ok(bytes) => bytes,
            Err(e) => {
                let _bytes = lent.give_up();
                return Err(e);
            }
        };
        let call = Call::UnmapArray {
            h: lent.array(),
            number: lent.number(),
            bytes,
        };
        self.call(alloc, call, ArrayLoan::Lent(lent))
    }

    /// Gives an array back that was lent for a parameter; its loan, if it is refused.
    fn unmap_parameter(&mut self, alloc: Global, lent: LentParam) -> Result<ArrayLoan, NoMemory> {
        let bytes = match block_with(alloc, lent.bytes()) {
            Ok(bytes) => bytes,
            Err(e) => {
                let _bytes = lent.give_up();
                return Err(e);
            }
        };
        let call = Call::UnmapParameterArray {
            h: lent.object(),
            name: lent.name().copied(),
            number: lent.number(),
            bytes,
        };
        self.call(alloc, call, ArrayLoan::Param(lent))
    }

    /// Gives a loan back; it comes back where that is refused.
    pub fn give_back(&mut self, alloc: Global, loan: ArrayLoan) -> Result<ArrayLoan, NoMemory> {
        match loan {
            ArrayLoan::Lent(lent) => self.unmap(alloc, lent),
            ArrayLoan::Param(lent) => self.unmap_parameter(alloc, lent),
            ArrayLoan::Nothing => Err(NoMemory),
        }
    }

    /// Gives a loan back for good; whether there was memory.
    pub fn end_loan(&mut self, alloc: Global, loan: ArrayLoan) -> bool {
        match self.give_back(alloc, loan) {
            Ok(loan) => {
                loan.give_up();
                true
            }
            Err(NoMemory) => false,
        }
    }

    /// The reply to the last call.
    fn reply(&self) -> Option<&Reply> {
        match self.happened.entries.last()? {
            Entry::Called { reply, .. } => Some(reply),
            _ => None,
        }
    }

    pub fn expect_done(&self) -> Result<(), Fail> {
        expect(matches!(self.reply(), Some(Reply::Done)), "done")
    }

    /// The last call made the object with this handle.
    pub fn expect_made(&self, handle: u64) -> Result<(), Fail> {
        match self.reply() {
            Some(Reply::Made(h)) => expect(h.0 == handle, "another handle"),
            _ => Err("an object")?,
        }
    }

    /// The last call, on this object, was refused so, and told so.
    pub fn expect_refused(&self, refused: &Refused, source: u64) -> Result<(), Fail> {
        match self.reply() {
            Some(Reply::Denied(given)) => expect(given == refused, "another refusal")?,
            _ => Err("a refusal")?,
        }
        match self.client.heard.last() {
            Some(Notice::Told(status)) => {
                expect(
                    is_status(status, refused.number(), source),
                    "another status",
                )
            }
            _ => Err("a status")?,
        }
    }

    /// What the client was told.
    pub fn heard(&self) -> &[Notice] {
        self.client.heard.as_slice()
    }

    /// The bytes of an array.
    pub fn bytes_of(&self, h: u64) -> Option<&Bytes> {
        self.objects.store().bytes(Handle(h))
    }

    /// The public references to an object.
    pub fn references_to(&self, h: u64) -> Option<u64> {
        self.objects.store().public(Handle(h))
    }
}

/// What is lent, or a failure.
fn lent(lent: Result<ArrayLoan, NoMemory>) -> Result<ArrayLoan, Fail> {
    match lent {
        Ok(loan) => Ok(loan),
        Err(NoMemory) => Err("out of memory")?,
    }
}

/// Whether a status tells of a refusal with this number, of a call on this object.
fn is_status(status: &Status, number: u8, source: u64) -> bool {
    let code = match number {
        2 | 4 | 5 | 6 | 7 | 8 | 17 | 18 => Code::InvalidArgument,
        _ => Code::InvalidOperation,
    };
    let wanted = Status {
        severity: Severity::Error,
        code,
        source: Handle(source),
        refusal: number,
    };
    *status == wanted
}

/// The values behind one another.
fn block_of(alloc: Global, values: &[Value]) -> Result<Bytes, Fail> {
    let mut bytes = Vec::new(alloc);
    for value in values {
        bytes.extend_from_slice(&encode_value(alloc, value)?)?;
    }
    Ok(Bytes::of(alloc, bytes).map_err(|_| "a block")?)
}

/// A block with these bytes.
fn block_with(alloc: Global, bytes: &[u8]) -> Result<Bytes, NoMemory>
    ensures { IfOk result (λ block. block ≡ bytes.now) }
{
    let bytes = bytes.to_vec(alloc)?;
    Bytes::of(alloc, bytes).map_err(|refused| refused.0)
}

/// Makes a call on the objects, and enters it.
fn apply(
    objects: &mut ObjectStore,
    happened: &mut Happened,
    client: &mut Listener,
    alloc: Global,
    call: Call,
    with: ArrayLoan,
) -> Result<ArrayLoan, NoMemory>
    requires desk { IsDesk objects.old happened.old.entries (vec_capacity client.old.heard - vec_len
        client.old.heard) }
    requires object_call { is_object_call call ≡ true }
    requires brings { Brings call with }
    ensures { IsDesk objects.new happened.new.entries (vec_capacity client.new.heard - vec_len
        client.new.heard) }
{
    if happened.reserve().is_err() {
        with.give_up();
        return Err(NoMemory);
    }
    match objects.apply(alloc, client, happened, call, with) {
        Ok((call, reply, out)) => {
            happened.enter(call, reply);
            Ok(out)
        }
        Err((_none, _call, with)) => {
            with.give_up();
            Err(NoMemory)
        }
    }
}
