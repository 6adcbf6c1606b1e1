ghost use Rattle.std.specs.Prelude.{◌≡◌, ◌≤◌, ◌↔◌, ⊤, IsTrue, IsSome, IfSome, length};
ghost use Rattle.std.specs.List.{list_all};
ghost use Rattle.dev_types.specs.Bounded.{is_name, is_name_byte, is_text};

use arrayvec::ArrayVec;
use std::alloc::AllocError;
use std::marker::Model;
use std::str;

/// A name of an object's subtype, parameter, channel or property: 1 to 64 bytes, each from 0x21 to
/// 0x7E. Names are ordered by their bytes.
#[derive(Debug, PartialEq, Eq, PartialOrd, Ord, Drop)]
pub struct Name {
    bytes: ArrayVec<u8, 64>,
}

impl Model for Name {
    ghost use Rattle.std.specs.Prelude.{ℕ, List, IsTrue};
    ghost use Rattle.dev_types.specs.Bounded.{is_name};

    ghost Value = { List ℕ };

    ghost view = { λ n. n.bytes.items };

    ghost invariant = { λ n. IsTrue (is_name n.bytes.items) };

    ghost inverse = { λ bytes. record { bytes = record { items = bytes } } };
}

impl Name {
    /// The most bytes that a name has.
    pub const MAX_LEN: usize = 64;

    /// `None` exactly where `s` is no name: empty, longer than 64 bytes, or with a byte outside 0x21 to
    /// 0x7E.
    #[tactic(auto, using(crate::proofs::TextFacts::name_fits))]
    pub fn new(s: &str) -> Option<Name>
        ensures valid { IsSome result ↔ IsTrue (is_name s.now) }
        ensures value { IfSome result (λ name. name ≡ s.now) }
    {
        if !is_name(s.as_bytes()) {
            return None;
        }
        Some(Name {
            bytes: ArrayVec::try_from(s.as_bytes()).ok()?,
        })
    }

    /// The name that `s` is; `new` is the test.
    pub fn of(s: &str) -> Name
        requires { IsTrue (is_name s.now) }
        ensures { result ≡ s.now }
    {
        match Name::new(s) {
            Some(name) => name,
            None => unreachable!(),
        }
    }

    /// The same name once more; it takes no memory.
    pub fn copied(&self) -> Name
        ensures { result ≡ self.now }
    {
        let mut bytes = ArrayVec::new();
        let _all_fit = bytes.try_extend_from_slice(self.bytes.as_slice());
        Name { bytes }
    }

    pub fn as_str(&self) -> &str
        ensures value { result.now ≡ self.now }
        ensures valid { IsTrue (is_name result.now) }
    {
        let bytes = self.bytes.as_slice();
        unsafe { str::from_utf8_unchecked(bytes) }
    }
}

impl Clone for Name {
    ghost is_clone = { λ name copy. copy ≡ name };

    ghost is_infallible = { λ _. ⊤ };

    fn clone(&self) -> Result<Name, AllocError> {
        Ok(self.copied())
    }
}

fn is_name(bytes: &[u8]) -> bool
    ensures { result ≡ is_name bytes.now }
{
    (1..=Name::MAX_LEN).contains(&bytes.len()) && all_print(bytes)
}

fn all_print(bytes: &[u8]) -> bool
    ensures { result ≡ list_all is_name_byte bytes.now }
{
    bytes.iter().all(|&b| is_name_byte(b))
}

fn is_name_byte(byte: u8) -> bool
    ensures { result ≡ is_name_byte byte }
{
    (0x21..=0x7E).contains(&byte)
}

/// The value of a string parameter: 0 to 256 bytes of UTF-8.
#[derive(Debug, PartialEq, Eq, Drop)]
pub struct Text {
    bytes: ArrayVec<u8, 256>,
}

impl Model for Text {
    ghost use Rattle.std.specs.Prelude.{ℕ, List, IsTrue};
    ghost use Rattle.dev_types.specs.Bounded.{is_text};

    ghost Value = { List ℕ };

    ghost view = { λ t. t.bytes.items };

    ghost invariant = { λ t. IsTrue (is_text t.bytes.items) };

    ghost inverse = { λ bytes. record { bytes = record { items = bytes } } };
}

impl Text {
    /// The most bytes that a text has.
    pub const MAX_LEN: usize = 256;

    /// `None` exactly where `s` is longer than 256 bytes.
    #[tactic(auto, using(crate::proofs::TextFacts::is_text_from))]
    pub fn new(s: &str) -> Option<Text>
        ensures valid { IsSome result ↔ (length s.now ≤ 256) }
        ensures value { IfSome result (λ text. text ≡ s.now) }
    {
        Some(Text {
            bytes: ArrayVec::try_from(s.as_bytes()).ok()?,
        })
    }

    /// The same text once more; it takes no memory.
    pub fn copied(&self) -> Text
        ensures { result ≡ self.now }
    {
        let mut bytes = ArrayVec::new();
        let _all_fit = bytes.try_extend_from_slice(self.bytes.as_slice());
        Text { bytes }
    }

    pub fn as_str(&self) -> &str
        ensures value { result.now ≡ self.now }
        ensures valid { IsTrue (is_text result.now) }
    {
        let bytes = self.bytes.as_slice();
        unsafe { str::from_utf8_unchecked(bytes) }
    }
}

impl Clone for Text {
    ghost is_clone = { λ text copy. copy ≡ text };

    ghost is_infallible = { λ _. ⊤ };

    fn clone(&self) -> Result<Text, AllocError> {
        Ok(self.copied())
    }
}
