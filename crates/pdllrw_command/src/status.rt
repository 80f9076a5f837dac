ghost use Rattle.std.specs.Prelude.{◌≡◌};

use mlir_attributes::fault::ModFault;
use pdll_syntax::fault::PatFault;
use rewrite_model::run::{BoundKind, Broken};

/// How the program ended.
#[derive(Clone, Copy, Debug, PartialEq, Eq)]
pub enum Status {
    Done,
    Bound(BoundKind),
    Usage,
    PatternFault(PatFault),
    ModuleFault(ModFault),
    Broken(Broken),
    ReadFault,
    WriteFault,
    NoMemory,
}

impl Status {
    ghost use Rattle.pdllrw_command.specs.Codes.{code_of};

    /// The number with which the process ends.
    pub fn code(&self) -> u8
        ensures { result ≡ code_of self.now }
    {
        match self {
            Status::Done => 0,
            Status::Bound(_) => 1,
            Status::Usage => 2,
            Status::PatternFault(_) => 3,
            Status::ModuleFault(_) => 4,
            Status::Broken(_) => 5,
            Status::ReadFault => 6,
            Status::WriteFault => 7,
            Status::NoMemory => 8,
        }
    }
}
