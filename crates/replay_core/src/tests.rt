// Labels, the calls of a trace and what is written into a loan, with ample memory.
use crate::bindings::{Binding, Bindings, Labels};
use crate::calls::call_of;
use crate::writes::Draft;
use dev_types::{DataType, Handle, Name, Origin};
use seq_model::Call;
use std::test::Fail;
use trace_text::{ArrayData, Components, Items, TraceCall, Write};

#[test]
fn a_label_is_known_to_its_own_caller_and_in_later_phases(rt: HostRuntime) -> Result<(), Fail> {
    let label = Name::new("a").ok_or("a name")?;
    let mut bound = Bindings::new(rt.alloc());
    for (caller, handle) in [(2, 7), (3, 8)] {
        let binding = Binding {
            label: label.copied(),
            handle: Handle(handle),
            phase: 1,
            caller,
        };
        bound
            .bind(rt.alloc(), binding)
            .map_err(|_| "out of memory")?;
    }
    for (phase, caller, handle) in [(1, 2, 7), (1, 3, 8), (1, 4, 0), (2, 3, 7), (0, 2, 0)] {
        let labels = Labels {
            bound: &bound,
            own: None,
            phase,
            caller,
        };
        assert_eq!(rt; labels.handle(&label), Handle(handle), "{phase} {caller}");
    }
    Ok(())
}

#[test]
fn elements_stand_at_their_stride(rt: HostRuntime) -> Result<(), Fail> {
    let bound = Bindings::new(rt.alloc());
    let labels = Labels {
        bound: &bound,
        own: None,
        phase: 0,
        caller: 0,
    };
    let values = Vec::from_slice(rt.alloc(), &[1, 2, 3, 4, 5, 6, 7, 8])?;
    let call = TraceCall::NewArray {
        label: Name::new("a").ok_or("a name")?,
        elem: DataType::Uint32,
        count: 2,
        stride: 6,
        origin: Origin::Captured(1),
        data: ArrayData::Values(Items::from_vec(values)),
    };
    match call_of(rt.alloc(), &labels, &call).map_err(|_| "out of memory")? {
        Some(Call::NewArray { bytes, .. }) => {
            assert!(rt; bytes.as_slice() == [1, 2, 3, 4, 0, 0, 5, 6, 7, 8].as_slice());
            Ok(())
        }
        _ => Err("an array is made".into()),
    }
}

#[test]
fn what_has_no_place_is_not_written(rt: HostRuntime) -> Result<(), Fail> {
    let bound = Bindings::new(rt.alloc());
    let labels = Labels {
        bound: &bound,
        own: None,
        phase: 0,
        caller: 0,
    };
    let mut draft = Draft::new(rt.alloc(), DataType::Uint32, 2).map_err(|_| "out of memory")?;
    for (index, number) in [(1, 258), (2, 1), (0, -1)] {
        let mut writes = Vec::new(rt.alloc());
        let numbers = Vec::from_slice(rt.alloc(), &[number])?;
        writes
            .push(Write {
                index,
                element: Components::Numbers(Items::from_vec(numbers)),
            })
            .map_err(|_| "out of memory")?;
        draft
            .write_all(rt.alloc(), &labels, &writes)
            .map_err(|_| "out of memory")?;
    }
    let bytes = draft.into_bytes(rt.alloc()).map_err(|_| "out of memory")?;
    assert!(rt; bytes.as_slice() == [0, 0, 0, 0, 2, 1, 0, 0].as_slice());
    Ok(())
}
