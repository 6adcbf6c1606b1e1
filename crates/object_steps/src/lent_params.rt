//! Loans of new arrays that an application writes for parameters.
ghost use Rattle.std.specs.Prelude.{◌≡◌, ◌*◌, ◌≤◌, ◌^◌, IfOk, IsTrue, length, replicate};
ghost use Rattle.std.specs.Borrow.{sem, Array as Row, Lends, follows, u8 as byte};
ghost use Rattle.dev_types.specs.DataTypes.{byte_size, is_element_type};
ghost use Rattle.byte_view.specs.Halves.{borrow_of, elements};
ghost use Rattle.object_steps.specs.ParameterLoans.{with_bytes, zero_elements};

use byte_view::{Strided, StridedMut};
use dev_types::{DataType, Handle, Name, NoMemory, size_of};
use std::alloc::Global;
use std::marker::Model;

/// A loan of the memory of a new array for a parameter, to be written and then given back (ANARI 1.0
/// Specification, parameter arrays). Its bytes are its own: until it is given back, the parameter
/// stays as it was. It has to be spent, by the call that takes it back or by `give_up`.
pub struct LentParam {
    object: Handle,
    name: Name,
    number: u64,
    elem: DataType,
    count: u64,
    bytes: Vec<u8>,
}

impl Model for LentParam {
    ghost use Rattle.std.specs.Prelude.{length};
    ghost use Rattle.dev_types.specs.Blocks.{FitsBlock};
    ghost use Rattle.dev_types.specs.DataTypes.{byte_size};
    ghost use Rattle.object_steps.specs.ParameterLoans.{ParameterLoan};

    ghost Value = { ParameterLoan };

    ghost view = { λ l. record {
      object = l.object;
      name = l.name;
      number = l.number;
      elements = record {
        ty = l.elem;
        stride = byte_size l.elem;
        count = l.count;
        bytes = l.bytes.items;
      };
    } };

    ghost invariant = { λ l. FitsBlock l.elem (byte_size l.elem) l.count (length l.bytes.items) };
}

impl LentParam {
    ghost use Rattle.object_steps.specs.contracts.lent_params.LentParam.{the_row};

    /// A loan of `count` elements without gaps, at most 2^28 bytes, all zero.
    ///
    /// # Errors
    /// `NoMemory`.
    pub fn new(
        alloc: Global,
        object: Handle,
        name: &Name,
        number: u64,
        elem: DataType,
        count: u64,
    ) -> Result<LentParam, NoMemory>
        requires element { IsTrue (is_element_type elem) }
        requires bounded { count * byte_size elem ≤ 2 ^ 28 }
        ensures { IfOk result (λ loan. loan ≡ record {
          object = object;
          name = name.now;
          number = number;
          elements = zero_elements elem count;
        }) }
    {
        let bytes = zeros(alloc, elem, count)?;
        Ok(LentParam {
            object,
            name: name.copied(),
            number,
            elem,
            count,
            bytes,
        })
    }

    /// The object whose parameter is written.
    pub fn object(&self) -> Handle
        ensures { result ≡ self.now.object }
    {
        self.object
    }

    /// The parameter.
    pub fn name(&self) -> &Name
        ensures { result.now ≡ self.now.name }
    {
        &self.name
    }

    /// The number of the loan: the place of the journal entry that lent it.
    pub fn number(&self) -> u64
        ensures { result ≡ self.now.number }
    {
        self.number
    }

    /// The elements, as they stand in the loan.
    pub fn view(&self) -> Strided<'_>
        ensures { result ≡ self.now.elements }
    {
        Strided::over(
            &self.bytes,
            self.elem,
            u64::from(size_of(self.elem)),
            self.count,
        )
    }

    /// The elements, to be written. What is written stands in the loan afterwards.
    pub fn view_mut(&mut self) -> StridedMut<'_>
        ensures* writes_back { sem 𝓛 (follows the_row (Row byte 0) self.entry.ghost_name (borrow_of
            result) (with_bytes self.old)) }
        ensures value { elements result ≡ self.old.elements }
    {
        let stride = u64::from(size_of(self.elem));
        StridedMut::over(&mut self.bytes, self.elem, stride, self.count)
    }

    /// All bytes of the loan.
    pub fn bytes(&self) -> &[u8]
        ensures { result.now ≡ self.now.elements.bytes }
    {
        &self.bytes
    }

    /// All bytes of the loan, to be written. What is written stands in the loan afterwards.
    pub fn bytes_mut(&mut self) -> &mut [u8]
        ensures* writes_back { sem 𝓛 (Lends the_row (Row byte 0) self.entry result (with_bytes
            self.old)) }
        ensures value { result.now ≡ self.old.elements.bytes }
    {
        &mut self.bytes
    }

    /// Gives the loan's bytes up. The loan is out until the device closes.
    pub fn give_up(self) -> Vec<u8>
        ensures { result.items ≡ self.elements.bytes }
    {
        let LentParam {
            object: _,
            name: _,
            number: _,
            elem: _,
            count: _,
            bytes,
        } = self;
        bytes
    }
}

/// The bytes of so many elements without gaps, all 0.
fn zeros(alloc: Global, elem: DataType, count: u64) -> Result<Vec<u8>, NoMemory>
    requires { count * byte_size elem ≤ 2 ^ 28 }
    ensures { IfOk result (λ bytes. bytes.items ≡ replicate (count * byte_size elem) 0) }
{
    let len = count * u64::from(size_of(elem));
    let bytes = vec![in alloc; 0u8; len as usize]?;
    Ok(bytes)
}
