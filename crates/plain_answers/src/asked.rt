//! The record of a device over plain lists, as any device that is asked.
ghost use Rattle.std.specs.Prelude.{refl};
ghost use Rattle.seq_model.specs.State.{scene_objects};

use byte_view::Strided;
use call_answers::{Shown, Standing};
use dev_types::{Bytes, Channel, DataType, Handle, Name, Value};
use kind_tables::Kind;
use plain_journal::record::Record;
use plain_objects::changes::loan_with;
use plain_objects::objects::Shows;
use scene_read::Objects;
use std::marker::Model;

/// A record that is asked. A view, since the record stands in a crate below the trait.
#[derive(Drop)]
pub struct Asked<'a> {
    pub record: &'a Record,
}

impl<'a> Model for Asked<'a> {
    ghost use Rattle.seq_model.specs.Steps.{Past};

    ghost Value = { Past };

    ghost view = { λ a. a.record.now };
}

impl Objects for Asked<'_> {
    ghost objects = { λ past. scene_objects past.state };

    fn kind(&self, h: Handle) -> Option<Kind> {
        self.record.stage().kind(h)
    }

    fn committed(&self, h: Handle, name: &Name) -> Option<&Value> {
        self.record.stage().committed(h, name)
    }

    fn content(&self, h: Handle) -> Option<Strided<'_>> {
        self.record.stage().content(h)
    }

    fn block(&self, h: Handle) -> Option<&Bytes> {
        self.record.stage().block(h)
    }

    fn mapped(&self, h: Handle) -> bool {
        self.record.stage().mapped(h)
    }
}

impl Standing for Asked<'_> {
    ghost past = { λ past. past };

    fn is_legal(&self) {
        self.record.is_legal();
    }

    fn is_held(&self, h: Handle) -> bool {
        self.record.is_held(h)
    }

    fn next(&self) -> Handle {
        self.record.next()
    }

    fn place(&self) -> u64 {
        self.record.place()
    }

    fn is_array_loan_out(&self, h: Handle, number: u64, len: usize) -> bool {
        self.record.stage().is_array_loan_out(h, number, len)
    }

    fn is_parameter_loan_out(&self, h: Handle, name: &Name, number: u64, len: usize) -> bool {
        self.record
            .stage()
            .is_parameter_loan_out(h, name, number, len)
    }

    fn parameter_loan(&self, h: Handle, number: u64) -> Option<(DataType, u64)> {
        let object = self.record.get(h)?;
        let loan = loan_with(&object.parameter_loans, number)?;
        Some((loan.elem, loan.count))
    }

    fn mapped_channels(&self, h: Handle) -> Option<&[(Channel, u64)]> {
        let object = self.record.get(h)?;
        Some(object.channels.as_slice())
    }

    fn shows(&self, h: Handle) -> Shown {
        match self.record.shows(h) {
            Shows::Nothing => Shown::Nothing,
            Shows::Flight(ticket) => Shown::Flight {
                ticket,
                tiles: self.record.tiles(ticket),
            },
            Shows::Picture(ticket) => Shown::Picture {
                ticket,
                asked: self.record.render(ticket).channels,
            },
        }
    }

    ghost agrees = { λ past. refl };
}
