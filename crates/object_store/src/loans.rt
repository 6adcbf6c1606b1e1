//! The arrays that an application writes for parameters (ANARI 1.0 Specification, parameter arrays).
ghost use Rattle.std.specs.Prelude.{◌≡◌, ◌*◌, ◌≤◌, IsTrue, option_copied};
ghost use Rattle.std.specs.List.{list_any};
ghost use Rattle.dev_types.specs.DataTypes.{byte_size, is_element_type};
ghost use Rattle.seq_model.specs.Refusals.{is_parameter_out, most_bytes};
ghost use Rattle.seq_model.specs.State.{parameter_loan};

use dev_types::{DataType, Name, size_of};
use std::marker::Model;

/// A new array that an application writes for a parameter: `count` elements without gaps, at most
/// 2^28 bytes.
#[derive(Drop)]
pub struct ParameterLoan {
    pub number: u64,
    pub name: Name,
    pub elem: DataType,
    pub count: u64,
    ghost element: { IsTrue (is_element_type elem) },
    ghost bounded: { count * byte_size elem ≤ most_bytes },
}

impl Model for ParameterLoan {
    ghost use Rattle.seq_model.specs.State.{ParameterLoan as Loan};

    ghost Value = { Loan };

    ghost view = { λ l. record { number = l.number; name = l.name; elem = l.elem; count = l.count } };
}

/// Whether the loan has this number, is for this parameter, and has so many bytes.
fn is_out(loan: &ParameterLoan, name: &Name, number: u64, len: usize) -> bool
    ensures { result ≡ is_parameter_out name.now number len loan.now }
{
    loan.number == number
        && loan.name.as_str() == name.as_str()
        && u128::from(loan.count) * u128::from(size_of(loan.elem)) == len as u128
}

/// Whether one of the loans has this number, is for this parameter, and has so many bytes.
pub fn is_any_out(loans: &[ParameterLoan], name: &Name, number: u64, len: usize) -> bool
    ensures { result ≡ list_any (is_parameter_out name.now number len) loans.now }
{
    loans.iter().any(|loan| is_out(loan, name, number, len))
}

/// The loan with this number, if it is among them.
pub fn loan_with(loans: &[ParameterLoan], number: u64) -> Option<&ParameterLoan>
    ensures { option_copied result ≡ parameter_loan number loans.now }
{
    loans.iter().find(|loan| loan.number == number)
}
