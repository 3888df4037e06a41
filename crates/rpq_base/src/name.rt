//! Names of vertices, labels and queries.

ghost use Rattle.std.specs.Prelude.{◌≡◌, ◌<◌, ◌⊎◌, false, OnOk, IfOk, IfErr, IfNone, IfSome, Some};
ghost use Rattle.std.specs.Prelude.{not, length, position, slice_index};
ghost use Rattle.std.specs.List.{AllPass};
ghost use Rattle.rpq_base.specs.declared.name.NameFault.{NameFault};
ghost use Rattle.rpq_base.specs.FaultTexts.{name_fault_text};
ghost use Rattle.rpq_base.specs.Names.{is_name_byte, has_name_length, is_name, IsName, IsNameFault};

use crate::bytes_order::bytes_compared;
use crate::memory::{Memory, TryClone};
use smallvec::SmallVec;
use std::alloc::{AllocError, Global};
use std::cmp::Ordering;
use std::error::Error;
use std::fmt;
use std::hash::{Hash, Hasher};
use std::marker::Model;

/// The most bytes that a name has.
pub const MAX_NAME: usize = 255;

/// Why bytes are no name.
#[derive(Clone, Copy, Debug, PartialEq, Eq)]
pub enum NameFault {
    /// There are this many bytes: none, or more than 255.
    Length(usize),
    /// The number is right; the byte at this place, from 1, is the first that may not stand in a
    /// name.
    Byte(usize),
    /// Memory ran out.
    Memory,
}

impl From<AllocError> for NameFault {
    ghost from_gives = { λ _ fault. fault ≡ NameFault.Memory };

    fn from(_: AllocError) -> Self {
        Self::Memory
    }
}

impl fmt::Display for NameFault {
    ghost output = { λ fault. Some (name_fault_text fault) };

    fn fmt<W: fmt::Write>(&self, f: &mut fmt::Formatter<W>) -> fmt::Result {
        match self {
            Self::Length(length) => write!(f, "a name has 1 to 255 bytes, and not {length}"),
            Self::Byte(at) => write!(f, "byte {at} may not stand in a name"),
            Self::Memory => f.write_str("out of memory"),
        }
    }
}

impl Error for NameFault {}

/// The name of a vertex, a label or a query: 1 to 255 bytes, each from 0x21 to 0x7E or at least
/// 0x80.
///
/// Contracts see it as its bytes. Names are ordered by their bytes, a name before those that it
/// begins. A name of up to 16 bytes takes no memory of its own, so that it is copied fast.
#[derive(Debug)]
pub struct Name {
    bytes: SmallVec<u8, 16>,
}

// By hand: of a derived drop each crate that drops a name would prove all parts anew.
impl Drop for Name {
    fn drop(self) {
        let Name { bytes: _bytes } = self;
    }
}

impl Model for Name {
    ghost use Rattle.std.specs.Prelude.{List, ℕ};
    ghost use Rattle.rpq_base.specs.Names.{IsName};

    ghost Value = { List ℕ };

    ghost view = { λ name. name.bytes.items };

    ghost invariant = { λ name. IsName name.bytes.items };
}

fn has_name_length(bytes: &[u8]) -> bool
    ensures { result ≡ has_name_length bytes.now }
{
    (1..=MAX_NAME).contains(&bytes.len())
}

/// The index of the first byte that may not stand in a name.
fn first_bad_byte(bytes: &[u8]) -> Option<usize>
    ensures found { result ≡ position (λ byte. not (is_name_byte byte)) bytes.now }
    ensures within { IfSome result (λ index. index < length bytes.now) }
    ensures bad { IfSome result (λ index. is_name_byte (slice_index bytes.now index) ≡ false) }
    ensures none { IfNone result (AllPass is_name_byte bytes.now) }
{
    bytes.iter().position(|byte| !Name::is_name_byte(*byte))
}

impl Name {
    /// Whether the byte may stand in a name: 0x21 to 0x7E, or at least 0x80.
    pub fn is_name_byte(byte: u8) -> bool
        ensures { result ≡ is_name_byte byte }
    {
        matches!(byte, 0x21..=0x7E | 0x80..)
    }

    /// The name with these bytes, which are copied. The faults come in the order of [`NameFault`].
    #[tactic(auto, using(crate::proofs::Naming::parts_of_names))]
    pub fn new(alloc: Global, bytes: &[u8]) -> Result<Name, NameFault>
        ensures ok { IfOk result (λ name. name ≡ bytes.now) }
        ensures valid { OnOk result (IsName bytes.now) }
        ensures cause { IfErr result (λ fault. IsNameFault fault bytes.now) }
        ensures invalid { IfErr result
            (λ fault. (fault ≡ NameFault.Memory) ⊎ (is_name bytes.now ≡ false)) }
    {
        if !has_name_length(bytes) {
            return Err(NameFault::Length(bytes.len()));
        }
        if let Some(index) = first_bad_byte(bytes) {
            return Err(NameFault::Byte(index + 1));
        }
        Ok(Name {
            bytes: SmallVec::from_slice(alloc, bytes)?,
        })
    }

    /// The name with these bytes, which are one. They are copied. The only error is [`Memory`].
    pub fn of(alloc: Global, bytes: &[u8]) -> Result<Name, Memory>
        requires { IsName bytes.now }
        ensures { IfOk result (λ name. name ≡ bytes.now) }
    {
        Ok(Name {
            bytes: SmallVec::from_slice(alloc, bytes)?,
        })
    }

    /// The bytes of the name.
    pub fn as_bytes(&self) -> &[u8]
        ensures bytes { result.now ≡ self.now }
        ensures valid { IsName self.now }
    {
        self.bytes.as_slice()
    }
}

impl TryClone for Name {
    fn copy(&self) -> Result<Name, Memory> {
        Ok(Name {
            bytes: SmallVec::from_slice(*self.bytes.allocator(), self.bytes.as_slice())?,
        })
    }
}

impl PartialEq for Name {
    ghost use Rattle.std.specs.Prelude.{◌==◌};
    ghost use Rattle.std.specs.Cmp.Lexicographic.{pointwise};
    ghost use Rattle.std.specs.Cmp.Rules.{comparing};
    ghost use Rattle.std.proofs.Common.{rules};

    ghost eq = { pointwise ◌==◌ };

    ghost laws = { Prim.search (comparing, rules) };

    fn eq(&self, other: &Self) -> bool {
        self.bytes == other.bytes
    }
}

impl Eq for Name {
    ghost use Rattle.std.specs.Cmp.Rules.{comparing};
    ghost use Rattle.std.proofs.Common.{rules};

    ghost laws = { Prim.search (comparing, rules) };
}

/// A name is fed to a hash in one write.
impl Hash for Name {
    ghost use Rattle.std.specs.Prelude.{List, ℕ, [], ◌∷◌};
    ghost use Rattle.std.specs.Cmp.Lexicographic.{bytes_decides};
    ghost use Rattle.std.proofs.Common.{ap};

    ghost hash_input = { λ name. name ∷ [] };

    ghost respects_eq = { λ first second same.
        ap (λ (bytes : List ℕ). bytes ∷ []) ((bytes_decides first second).0 same) };

    fn hash<H: Hasher>(&self, state: &mut H) {
        state.write(self.as_bytes());
    }
}

impl PartialOrd for Name {
    ghost use Rattle.std.specs.Ordering.{as_partial_cmp, nat_cmp};
    ghost use Rattle.std.specs.Cmp.Lexicographic.{slice_cmp};
    ghost use Rattle.std.specs.Cmp.{partial_order_from_own_ties};
    ghost use Rattle.std.specs.Cmp.Rules.{comparing};
    ghost use Rattle.std.proofs.Common.{rules};

    ghost partial_cmp = { as_partial_cmp (slice_cmp nat_cmp) };

    ghost laws = { partial_order_from_own_ties (Prim.search (comparing, rules)) (Prim.search (comparing, rules)) };

    fn partial_cmp(&self, other: &Self) -> Option<Ordering> {
        Some(self.cmp(other))
    }
}

impl Ord for Name {
    ghost use Rattle.std.specs.Ordering.{nat_cmp};
    ghost use Rattle.std.specs.Cmp.Lexicographic.{slice_cmp};
    ghost use Rattle.std.specs.Cmp.Rules.{comparing};
    ghost use Rattle.std.proofs.Common.{rules};

    ghost cmp = { slice_cmp nat_cmp };

    ghost total = { Prim.search (comparing, rules) };

    ghost matches_partial_cmp = { Prim.search (comparing, rules) };

    ghost matches_eq = { Prim.search (comparing, rules) };

    fn cmp(&self, other: &Self) -> Ordering {
        bytes_compared(self.bytes.as_slice(), other.bytes.as_slice())
    }
}
