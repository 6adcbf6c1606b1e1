//! Which loans are out, and why an unmap is refused.
ghost use Rattle.std.specs.Prelude.{◌≡◌, ◌==◌, ◌*◌, not};
ghost use Rattle.std.specs.Bool.{then_some};
ghost use Rattle.std.specs.List.{list_any};
ghost use Rattle.dev_types.specs.declared.refusals.Refused.TheVariants.{NotMapped};
ghost use Rattle.seq_model.specs.Refusals.{is_array_loan_out, is_array_out, is_channel_out, is_parameter_loan_out, is_parameter_out};

use crate::objects::{Array, ParameterLoan};
use crate::stage::Stage;
use dev_types::{Channel, Handle, Name, size_of};

/// Whether the loan of this number is out, of an array with so many bytes.
fn is_array_out(array: &Array, number: u64, len: usize) -> bool
    ensures { result ≡ is_array_out number len array.now }
{
    match array.loan {
        Some(lent) => lent == number && array.bytes.as_slice().len() == len,
        None => false,
    }
}

/// Whether the loan is one of this number, for this parameter, with so many bytes.
fn is_parameter_out(loan: &ParameterLoan, name: &Name, number: u64, len: usize) -> bool
    ensures { result ≡ is_parameter_out name.now number len loan.now }
{
    loan.number == number
        && loan.name.as_str() == name.as_str()
        && u128::from(loan.count) * u128::from(size_of(loan.elem)) == len as u128
}

impl Stage {
    /// Whether a loan of this number and length of the array is out.
    pub fn is_array_loan_out(&self, h: Handle, number: u64, len: usize) -> bool
        ensures { result ≡ is_array_loan_out self.now h number len }
    {
        let Some(object) = self.get(h) else {
            return false;
        };
        match &object.array {
            Some(array) => is_array_out(array, number, len),
            None => false,
        }
    }

    /// Whether a loan of this number and length is out for the parameter.
    pub fn is_parameter_loan_out(&self, h: Handle, name: &Name, number: u64, len: usize) -> bool
        ensures { result ≡ is_parameter_loan_out self.now h name.now number len }
    {
        match self.get(h) {
            Some(object) => is_any_out(&object.parameter_loans, name, number, len),
            None => false,
        }
    }

    /// Whether a channel of the frame was lent under this number.
    pub fn is_channel_out(&self, h: Handle, number: u64) -> bool
        ensures { result ≡ is_channel_out self.now h number }
    {
        match self.get(h) {
            Some(object) => is_any_lent(&object.channels, number),
            None => false,
        }
    }
}

/// Whether one of the loans is it.
fn is_any_out(loans: &[ParameterLoan], name: &Name, number: u64, len: usize) -> bool
    ensures { result ≡ list_any (is_parameter_out name.now number len) loans.now }
{
    loans
        .iter()
        .any(|loan| is_parameter_out(loan, name, number, len))
}

/// Whether one of the channels was lent under this number.
fn is_any_lent(channels: &[(Channel, u64)], number: u64) -> bool
    ensures { result ≡ list_any (λ m. m.1 == number) channels.now }
{
    channels.iter().any(|mapped| mapped.1 == number)
}
