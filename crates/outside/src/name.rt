// A name that stands on its own, apart from the text it was read from.
ghost use Rattle.std.specs.Prelude.{◌≡◌, ◌≤◌, IfOk, List, ℕ, length, take};

use std::alloc::{AllocError, Global};
use std::marker::Model;

/// A name of at most so many bytes takes no memory but its own.
const SHORT: usize = 23;

/// A name of few bytes.
#[derive(Debug, Clone, Copy)]
pub(crate) struct ShortName {
    pub(crate) count: u8,
    pub(crate) bytes: [u8; SHORT],
    ghost within: { count ≤ 23 },
}

impl ShortName {
    /// Copies the bytes.
    fn new(bytes: &[u8]) -> ShortName
        requires { length bytes.now ≤ 23 }
        ensures { take result.count result.bytes ≡ bytes.now }
    {
        let mut kept = [0; SHORT];
        kept[..bytes.len()].copy_from_slice(bytes);
        ShortName {
            count: bytes.len() as u8,
            bytes: kept,
        }
    }

    /// The bytes of the name.
    fn bytes(&self) -> &[u8]
        ensures { result.now ≡ take self.now.count self.now.bytes }
    {
        &self.bytes[..usize::from(self.count)]
    }
}

/// The bytes of a name.
#[derive(Debug, Drop)]
pub(crate) enum KeptName {
    Short(ShortName),
    Long(Vec<u8>),
}

/// An owned list of bytes: the name of a layer, net, node or file.
#[derive(Debug, Drop)]
pub struct Name {
    kept: KeptName,
}

impl Model for Name {
    ghost use Rattle.std.specs.Prelude.{ℕ, List};
    ghost use Rattle.outside.specs.inside.Name.{bytes_of};

    ghost Value = { List ℕ };

    ghost view = { λ name. bytes_of name.kept };
}

impl Name {
    /// Copies the bytes. It fails only for want of memory.
    pub fn new(alloc: Global, bytes: &[u8]) -> Result<Name, AllocError>
        ensures { IfOk result (λ name. name ≡ bytes.now) }
    {
        if bytes.len() <= SHORT {
            return Ok(Name {
                kept: KeptName::Short(ShortName::new(bytes)),
            });
        }
        Ok(Name {
            kept: KeptName::Long(bytes.to_vec(alloc)?),
        })
    }

    /// The bytes of the name.
    pub fn bytes(&self) -> &[u8]
        ensures { result.now ≡ self.now }
    {
        match &self.kept {
            KeptName::Short(name) => name.bytes(),
            KeptName::Long(bytes) => bytes,
        }
    }
}
