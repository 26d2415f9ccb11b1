// Why nothing could be read.
ghost use Rattle.std.specs.Prelude.{◌≡◌, alloc_error};
ghost use Rattle.scan.specs.declared.fault.Fault.TheVariants.{Memory};

use std::alloc::{AllocError, AllocFailed};

// Want of memory; or bytes that cease to be a request, and where they do.
#[derive(Clone, Copy, PartialEq, Eq, Debug)]
pub enum Fault {
    Memory(AllocError),
    Garbled(usize),
}

impl From<AllocError> for Fault {
    ghost from_gives = { λ e f. f ≡ Memory e };

    fn from(e: AllocError) -> Fault {
        Fault::Memory(e)
    }
}

impl<T: Drop> From<AllocFailed<T>> for Fault {
    ghost from_gives = { λ _ f. f ≡ Memory alloc_error };

    fn from(failed: AllocFailed<T>) -> Fault {
        Fault::Memory(AllocError::from(failed))
    }
}
