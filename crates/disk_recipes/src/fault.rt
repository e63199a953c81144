use std::alloc::AllocError;
use thiserror::Error;
use toml::de::Error as TomlError;
use toml::ser::WriteError;

/// Why a recipe isn't read or written.
#[derive(Clone, Copy, Debug, Error)]
pub enum RecipeFault {
    /// Memory ran out.
    #[error("memory ran out")]
    Memory,
    /// The text is no TOML, or its tables are no recipe's.
    #[error("{0}")]
    Text(TomlError),
}

impl From<TomlError> for RecipeFault {
    fn from(error: TomlError) -> RecipeFault {
        if error.is_memory() {
            RecipeFault::Memory
        } else {
            RecipeFault::Text(error)
        }
    }
}

impl From<AllocError> for RecipeFault {
    fn from(_error: AllocError) -> RecipeFault {
        RecipeFault::Memory
    }
}

impl From<WriteError> for RecipeFault {
    fn from(_error: WriteError) -> RecipeFault {
        RecipeFault::Memory
    }
}
