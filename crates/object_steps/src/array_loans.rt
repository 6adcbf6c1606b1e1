//! The loans that calls bring and hand out.
use crate::lent_params::LentParam;
use array_objects::Lent;

/// A loan that comes with a call, or that a call hands out. It has to be spent, as each loan has.
pub enum ArrayLoan {
    Nothing,
    /// The memory of an array.
    Lent(Lent),
    /// The memory of a new array for a parameter.
    Param(LentParam),
}

impl ArrayLoan {
    /// Gives the bytes of the loan up, if there is one.
    pub fn give_up(self) {
        match self {
            ArrayLoan::Nothing => {}
            ArrayLoan::Lent(lent) => {
                let _bytes = lent.give_up();
            }
            ArrayLoan::Param(lent) => {
                let _bytes = lent.give_up();
            }
        }
    }
}
