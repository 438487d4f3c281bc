// A file name or a label.
ghost use Rattle.std.specs.Prelude.{◌≡◌, ◌↔◌, IfOk, OnOk, IsErrOf};
ghost use Rattle.lux_io.specs.Names.{IsName, IsNoName};

use std::alloc::Global;
use std::marker::Model;
use thiserror::Error;

/// Why a text gave no name.
#[derive(Clone, Copy, Debug, PartialEq, Eq, Error)]
pub enum NameFault {
    /// The text has no byte, or more than 255.
    #[error("length")]
    Length,
    /// No memory was found.
    #[error("out of memory")]
    Memory,
}

/// A text of 1 to 255 bytes. Contracts see it as the list of its bytes.
#[derive(Debug, Drop)]
pub struct Name {
    text: String,
}

impl Model for Name {
    ghost use Rattle.std.specs.Prelude.{List, ℕ};
    ghost use Rattle.std.specs.String.{string_bytes};
    ghost use Rattle.lux_io.specs.Names.{IsName};

    ghost Value = { List ℕ };

    ghost view = { λ n. string_bytes n.text };

    ghost invariant = { λ n. IsName (string_bytes n.text) };
}

impl Name {
    /// A name of this text. `Length` comes exactly where the text has 0 or more than 255 bytes.
    pub fn new(alloc: Global, text: &str) -> Result<Name, NameFault>
        ensures ok { IfOk result (λ name. name ≡ text.now) }
        ensures named { OnOk result (IsName text.now) }
        ensures length { IsErrOf result NameFault.Length ↔ IsNoName text.now }
    {
        if text.is_empty() || text.len() > 255 {
            return Err(NameFault::Length);
        }
        match String::from_str(alloc, text) {
            Ok(text) => Ok(Name { text }),
            Err(_) => Err(NameFault::Memory),
        }
    }

    /// The text. Takes no memory.
    pub fn as_str(&self) -> &str
        ensures text { result.now ≡ self.now }
        ensures named { IsName self.now }
    {
        self.text.as_str()
    }
}
