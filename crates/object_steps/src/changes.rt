//! What a call that was answered does to the objects and to their counts.
ghost use Rattle.std.specs.Prelude.{◌≡◌, ◌+◌, ◌*◌, ◌^◌, ◌≤◌, IfErr, IfOk, IsOk, IsSome, IsTrue, MatchOption, MatchResult, Ok, Err, OnErr, OnOk, false, length, true};
ghost use Rattle.std.specs.Option.{option_and_then};
ghost use Rattle.array_objects.specs.Stores.{Fits};
ghost use Rattle.call_answers.specs.Plain.{needs_no_memory};
ghost use Rattle.dev_types.specs.DataTypes.{byte_size, is_element_type};
ghost use Rattle.object_store.specs.Parts.{array_of, named_with};
ghost use Rattle.past_laws.specs.Suits.{IsLoanOf, taken_array};
ghost use Rattle.seq_model.specs.Life.{names_of};
ghost use Rattle.seq_model.specs.Refusals.{is_bad_shape, most_bytes};
ghost use Rattle.seq_model.specs.State.{changed_at, object_at, parameter_loan, with_object};
ghost use Rattle.seq_model.specs.Steps.{change_array, first_bytes, fresh_array, holding, lend_parameter, unmap_parameter, zeros};
ghost use Rattle.seq_model.specs.declared.calls.Reply.TheVariants as reply;
ghost use Rattle.object_steps.specs.Carrying.{AreThere, CanCarry, GivesBack, IsNoUnmap, carried, handed, with_born};
ghost use Rattle.object_steps.specs.ParameterLoans.{zero_elements};
ghost use Rattle.object_steps.specs.declared.array_loans.ArrayLoan.TheVariants as loans;

use crate::array_loans::ArrayLoan;
use crate::lent_params::LentParam;
use array_objects::{Block, Lent};
use call_answers::layouts::needed_length;
use dev_types::{Bytes, DataType, Handle, Name, NoMemory, Origin, size_of};
use kind_tables::kind_of;
use object_store::loans::ParameterLoan;
use object_store::store::Store;
use seq_model::{Call, Reply};
use std::alloc::Global;

/// What the call at a place does to the objects by its reply. The loan of a map is handed out; that
/// of a call that was refused comes back; any other loan is spent.
///
/// # Errors
/// `NoMemory`; the loan comes back, and all is as it was.
pub fn carry_out(
    store: &mut Store,
    alloc: Global,
    place: u64,
    call: &Call,
    reply: &Reply,
    loan: ArrayLoan,
) -> Result<ArrayLoan, (NoMemory, ArrayLoan)>
    requires can { CanCarry store.old call.now reply.now }
    requires brings { GivesBack call.now reply.now loan }
    ensures ok { OnOk result (store.new ≡ carried place call.now reply.now store.old) }
    ensures handed { IfOk result (λ l. l ≡ handed place call.now reply.now store.old.state loan) }
    ensures returned { IfErr result (λ e. e.1 ≡ loan) }
    ensures err { OnErr result (store.new ≡ store.old) }
    ensures no_memory { needs_no_memory call.now ≡ true → IsOk result }
{
    match reply {
        Reply::Denied(_) => Ok(loan),
        Reply::Done => finish(store, alloc, place, call, loan),
        Reply::Made(_) => spent(create(store, alloc, call), loan),
        Reply::Lent(_) => spent(lend(store, alloc, place, call), loan),
        Reply::Mapped { .. }
        | Reply::Ready
        | Reply::NotReady { .. }
        | Reply::Val(_)
        | Reply::Listed(_)
        | Reply::Info(_) => spent(Ok(ArrayLoan::Nothing), loan),
    }
}

/// The loan that a call brought is spent where it was carried out, and comes back where it was not.
fn spent(
    carried: Result<ArrayLoan, NoMemory>,
    loan: ArrayLoan,
) -> Result<ArrayLoan, (NoMemory, ArrayLoan)>
    ensures { MatchResult carried (λ handed. result ≡ Ok handed) (λ e. result ≡ Err (e, loan)) }
{
    match carried {
        Ok(handed) => {
            loan.give_up();
            Ok(handed)
        }
        Err(e) => Err((e, loan)),
    }
}

/// What a creation that was done does.
#[tactic(auto, unfolding(seq_model::specs::Steps::effect))]
fn create(store: &mut Store, alloc: Global, call: &Call) -> Result<ArrayLoan, NoMemory>
    requires { CanCarry store.old call.now (reply.Made 0) }
    ensures ok { OnOk result (store.new ≡ carried 0 call.now (reply.Made 0) store.old) }
    ensures nothing { IfOk result (λ l. l ≡ loans.Nothing) }
    ensures err { OnErr result (store.new ≡ store.old) }
    ensures no_memory { needs_no_memory call.now ≡ true → IsOk result }
{
    match call {
        Call::NewObject { ty, subtype } => {
            let Some(kind) = kind_of(*ty, subtype) else {
                unreachable!();
            };
            store.new_object(alloc, kind);
        }
        Call::NewArray {
            elem,
            count,
            stride,
            origin,
            bytes,
        } => new_array(store, alloc, *elem, *count, *stride, *origin, bytes)?,
        Call::UnmapParameterArray {
            h,
            name,
            number,
            bytes,
        } => take_in(store, alloc, *h, name, *number, bytes)?,
        _ => {}
    }
    Ok(ArrayLoan::Nothing)
}

/// So many bytes 0.
fn zeros(alloc: Global, len: usize) -> Result<Bytes, NoMemory>
    ensures { IfOk result (λ bytes. bytes ≡ zeros len) }
{
    let bytes = vec![in alloc; 0u8; len]?;
    Bytes::of(alloc, bytes).map_err(|refused| refused.0)
}

/// The first content of an array: a managed one is all zero.
fn first_bytes(alloc: Global, origin: Origin, len: usize, bytes: &Bytes) -> Result<Bytes, NoMemory>
    ensures { IfOk result (λ first. first ≡ first_bytes origin len bytes.now) }
{
    match origin {
        Origin::Managed => zeros(alloc, len),
        _ => bytes.share(alloc),
    }
}

/// The block of a new array.
fn fresh_block(
    alloc: Global,
    elem: DataType,
    count: u64,
    stride: u64,
    origin: Origin,
    bytes: &Bytes,
) -> Result<Block, NoMemory>
    requires element { IsTrue (is_element_type elem) }
    requires shape { is_bad_shape elem count stride origin bytes.now ≡ false }
    ensures array { IfOk result (λ b. array_of b ≡ fresh_array elem count stride origin bytes.now) }
    ensures fits { IfOk result Fits }
    ensures short { IfOk result (λ b. b.count ≤ 2 ^ 28) }
{
    let len = needed_length(elem, stride, count) as usize;
    Ok(Block {
        ty: elem,
        count,
        stride,
        origin,
        bytes: first_bytes(alloc, origin, len, bytes)?,
    })
}

/// An array is made.
fn new_array(
    store: &mut Store,
    alloc: Global,
    elem: DataType,
    count: u64,
    stride: u64,
    origin: Origin,
    bytes: &Bytes,
) -> Result<(), NoMemory>
    requires room { store.old.ready ≡ true }
    requires element { IsTrue (is_element_type elem) }
    requires shape { is_bad_shape elem count stride origin bytes.now ≡ false }
    requires named { AreThere store.old.state (names_of (fresh_array elem count stride origin
        bytes.now)) }
    ensures ok { OnOk result (store.new ≡ record (with_born 1 store.old) {
      state = with_object (fresh_array elem count stride origin bytes.now) store.old.state;
    }) }
    ensures err { OnErr result (store.new ≡ store.old) }
{
    let block = fresh_block(alloc, elem, count, stride, origin, bytes)?;
    match store.new_array(alloc, block) {
        Ok(_) => Ok(()),
        Err((e, _)) => Err(e),
    }
}

/// The block of an array that comes back from a loan for a parameter.
fn taken_block(alloc: Global, loan: &ParameterLoan, bytes: &Bytes) -> Result<Block, NoMemory>
    requires { loan.now.count * byte_size loan.now.elem ≡ length bytes.now }
    ensures array { IfOk result (λ b. array_of b ≡ taken_array loan.now bytes.now) }
    ensures fits { IfOk result Fits }
    ensures short { IfOk result (λ b. b.count ≤ 2 ^ 28) }
{
    Ok(Block {
        ty: loan.elem,
        count: loan.count,
        stride: u64::from(size_of(loan.elem)),
        origin: Origin::Managed,
        bytes: bytes.share(alloc)?,
    })
}

/// An array that was written for a parameter comes back.
#[tactic(auto, unfolding(seq_model::specs::Steps::unmap_parameter, seq_model::specs::Steps::take_in))]
fn take_in(
    store: &mut Store,
    alloc: Global,
    h: Handle,
    name: &Name,
    number: u64,
    bytes: &Bytes,
) -> Result<(), NoMemory>
    requires room { store.old.ready ≡ true }
    requires loan { IsLoanOf store.old.state h name.now number (length bytes.now) }
    requires named { MatchOption (option_and_then (λ o. parameter_loan number o.parameter_loans)
        (object_at store.old.state h)) (Unit {0}) (λ l. AreThere store.old.state (names_of
        (taken_array l bytes.now))) }
    ensures ok { OnOk result (store.new ≡ record (with_born 0 store.old) {
      state = unmap_parameter h name.now number bytes.now store.old.state;
    }) }
    ensures err { OnErr result (store.new ≡ store.old) }
{
    let Some(loan) = store.parameter_loan(h, number) else {
        unreachable!();
    };
    let block = taken_block(alloc, loan, bytes)?;
    match store.take_in(alloc, h, name, number, block) {
        Ok(_) => Ok(()),
        Err((e, _)) => Err(e),
    }
}

/// What a call that lends something under the number of its place does.
#[tactic(auto, unfolding(seq_model::specs::Steps::effect))]
fn lend(store: &mut Store, alloc: Global, place: u64, call: &Call) -> Result<ArrayLoan, NoMemory>
    requires { CanCarry store.old call.now (reply.Lent place) }
    ensures ok { OnOk result (store.new ≡ carried place call.now (reply.Lent place) store.old) }
    ensures handed { IfOk result (λ l. l ≡ handed place call.now (reply.Lent place) store.old.state
        loans.Nothing) }
    ensures err { OnErr result (store.new ≡ store.old) }
    ensures no_memory { needs_no_memory call.now ≡ true → IsOk result }
{
    match call {
        Call::MapArray { h } => match store.map_array(alloc, *h, place) {
            Ok(lent) => Ok(ArrayLoan::Lent(lent)),
            Err(_) => Err(NoMemory),
        },
        Call::MapParameterArray {
            h,
            name,
            elem,
            count,
        } => lend_parameter(store, alloc, place, *h, name, *elem, *count),
        _ => Ok(ArrayLoan::Nothing),
    }
}

/// A new array is lent for a parameter.
fn lend_parameter(
    store: &mut Store,
    alloc: Global,
    place: u64,
    h: Handle,
    name: &Name,
    elem: DataType,
    count: u64,
) -> Result<ArrayLoan, NoMemory>
    requires there { IsSome (object_at store.old.state h) }
    requires element { IsTrue (is_element_type elem) }
    requires bounded { count * byte_size elem ≤ most_bytes }
    ensures ok { OnOk result (store.new ≡ record store.old {
      state = changed_at h (lend_parameter (record {
        number = place;
        name = name.now;
        elem = elem;
        count = count;
      })) store.old.state;
    }) }
    ensures handed { IfOk result (λ l. l ≡ loans.Param (record {
      object = h;
      name = name.now;
      number = place;
      elements = zero_elements elem count;
    })) }
    ensures err { OnErr result (store.new ≡ store.old) }
{
    let lent = LentParam::new(alloc, h, name, place, elem, count)?;
    let loan = ParameterLoan {
        number: place,
        name: name.copied(),
        elem,
        count,
    };
    match store.lend_parameter(h, loan) {
        Ok(()) => Ok(ArrayLoan::Param(lent)),
        Err(e) => {
            let _bytes = lent.give_up();
            Err(e)
        }
    }
}

/// What a call that was answered by `Done` does.
fn finish(
    store: &mut Store,
    alloc: Global,
    place: u64,
    call: &Call,
    loan: ArrayLoan,
) -> Result<ArrayLoan, (NoMemory, ArrayLoan)>
    requires can { CanCarry store.old call.now reply.Done }
    requires brings { GivesBack call.now reply.Done loan }
    ensures ok { OnOk result (store.new ≡ carried place call.now reply.Done store.old) }
    ensures nothing { IfOk result (λ l. l ≡ loans.Nothing) }
    ensures returned { IfErr result (λ e. e.1 ≡ loan) }
    ensures err { OnErr result (store.new ≡ store.old) }
    ensures no_memory { needs_no_memory call.now ≡ true → IsOk result }
{
    match (call, loan) {
        (Call::UnmapArray { bytes, .. }, ArrayLoan::Lent(lent)) => {
            take_back(store, alloc, lent, bytes)
        }
        (_, loan) => spent(change(store, alloc, call), loan),
    }
}

/// An array comes back with these bytes.
fn take_back(
    store: &mut Store,
    alloc: Global,
    lent: Lent,
    bytes: &Bytes,
) -> Result<ArrayLoan, (NoMemory, ArrayLoan)>
    requires length { length lent.elements.bytes ≡ length bytes.now }
    requires named { AreThere store.old.state (named_with bytes.now (object_at store.old.state
        lent.array)) }
    ensures ok { OnOk result (store.new ≡ record store.old {
      state = changed_at lent.array (change_array (holding bytes.now)) store.old.state;
    }) }
    ensures nothing { IfOk result (λ l. l ≡ loans.Nothing) }
    ensures returned { IfErr result (λ e. e.1 ≡ loans.Lent lent) }
    ensures err { OnErr result (store.new ≡ store.old) }
{
    let content = match bytes.share(alloc) {
        Ok(content) => content,
        Err(e) => return Err((e, ArrayLoan::Lent(lent))),
    };
    match store.unmap_array(lent, content) {
        Ok(()) => Ok(ArrayLoan::Nothing),
        Err((_, lent)) => Err((NoMemory, ArrayLoan::Lent(lent))),
    }
}

/// What a call that was answered by `Done`, and gives no loan back, does.
#[tactic(auto, unfolding(seq_model::specs::Steps::effect))]
fn change(store: &mut Store, alloc: Global, call: &Call) -> Result<ArrayLoan, NoMemory>
    requires can { CanCarry store.old call.now reply.Done }
    requires other { IsNoUnmap call.now }
    ensures ok { OnOk result (store.new ≡ carried 0 call.now reply.Done store.old) }
    ensures nothing { IfOk result (λ l. l ≡ loans.Nothing) }
    ensures err { OnErr result (store.new ≡ store.old) }
    ensures no_memory { needs_no_memory call.now ≡ true → IsOk result }
{
    match call {
        Call::Retain { h } => store.retain(*h),
        Call::Release { h } => store.release(*h),
        Call::SetParameter { h, name, value } => store.set_parameter(alloc, *h, name, value)?,
        Call::UnsetParameter { h, name } => store.unset_parameter(alloc, *h, name)?,
        Call::UnsetAll { h } => store.unset_all(alloc, *h)?,
        Call::Commit { h } => store.commit(alloc, *h)?,
        _ => {}
    }
    Ok(ArrayLoan::Nothing)
}
