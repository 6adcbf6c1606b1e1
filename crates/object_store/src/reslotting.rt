//! Changes of what is kept of one object beside its parameters.
ghost use Rattle.std.specs.Prelude.{◌≡◌, ◌+◌, ◌<◌, ◌≤◌, ◌^◌, IfSome, IsSome, OnOk, OnErr, length, option_map};
ghost use Rattle.handle_table.specs.HandleMaps.{value_at};
ghost use Rattle.object_store.specs.Moves.{Reslots};
ghost use Rattle.object_store.specs.Parts.{end_in, hold_in, holds_at, lend_in, map_in, show_in, unhold_in, unmap_in};
ghost use Rattle.object_store.specs.Phases.{phase_of};

use crate::loans::ParameterLoan;
use crate::slots::{Shows, Slot};
use dev_types::{Channel, Handle, NoMemory};
use handle_table::Table;

/// The frame with this handle, which is there, shows something else.
pub fn show_at(slots: &mut Table<Slot>, h: Handle, shows: Shows)
    requires { IsSome (value_at slots.old h) }
    ensures { Reslots slots.old slots.new h (show_in (phase_of shows)) }
{
    let Some(slot) = slots.get_mut(h) else {
        unreachable!();
    };
    slot.show(shows);
}

/// Notes that a channel of the frame with this handle, which is there, is mapped.
pub fn map_channel_at(
    slots: &mut Table<Slot>,
    h: Handle,
    channel: Channel,
    number: u64,
) -> Result<(), NoMemory>
    requires { IsSome (value_at slots.old h) }
    ensures ok { OnOk result (Reslots slots.old slots.new h (map_in channel number)) }
    ensures err { OnErr result (slots.new ≡ slots.old) }
{
    let Some(slot) = slots.get_mut(h) else {
        unreachable!();
    };
    slot.map_channel(channel, number)
}

/// The channels with this number, of the frame with this handle, which is there, are mapped no
/// more; tells how many they were.
pub fn unmap_channel_at(slots: &mut Table<Slot>, h: Handle, number: u64) -> u64
    requires { IsSome (value_at slots.old h) }
    ensures changes { Reslots slots.old slots.new h (unmap_in number) }
    ensures count { IfSome (value_at slots.old h) (λ p. result + length (unmap_in number p).channels
        ≡ length p.channels) }
{
    let Some(slot) = slots.get_mut(h) else {
        unreachable!();
    };
    slot.unmap_channel(number)
}

/// Notes an array that is written for a parameter of the object with this handle, which is there.
pub fn lend_at(slots: &mut Table<Slot>, h: Handle, loan: ParameterLoan) -> Result<(), NoMemory>
    requires { IsSome (value_at slots.old h) }
    ensures ok { OnOk result (Reslots slots.old slots.new h (lend_in loan)) }
    ensures err { OnErr result (slots.new ≡ slots.old) }
{
    let Some(slot) = slots.get_mut(h) else {
        unreachable!();
    };
    slot.lend(loan)
}

/// The arrays with this number, that are written for parameters of the object with this handle,
/// which is there, are written no more; tells how many they were.
pub fn end_loan_at(slots: &mut Table<Slot>, h: Handle, number: u64) -> u64
    requires { IsSome (value_at slots.old h) }
    ensures changes { Reslots slots.old slots.new h (end_in number) }
    ensures count { IfSome (value_at slots.old h) (λ p. result + length (end_in number p).loans ≡
        length p.loans) }
{
    let Some(slot) = slots.get_mut(h) else {
        unreachable!();
    };
    slot.end_loan(number)
}

/// One flight more holds the object with this handle, which is there.
pub fn hold_at(slots: &mut Table<Slot>, h: Handle)
    requires there { IsSome (value_at slots.old h) }
    requires few { holds_at slots.old.entries h < 2 ^ 40 }
    ensures { Reslots slots.old slots.new h hold_in }
{
    let Some(slot) = slots.get_mut(h) else {
        unreachable!();
    };
    slot.hold();
}

/// One flight less holds the object with this handle, which is there.
pub fn unhold_at(slots: &mut Table<Slot>, h: Handle)
    requires there { IsSome (value_at slots.old h) }
    requires held { 1 ≤ holds_at slots.old.entries h }
    ensures { Reslots slots.old slots.new h unhold_in }
{
    let Some(slot) = slots.get_mut(h) else {
        unreachable!();
    };
    slot.unhold();
}
