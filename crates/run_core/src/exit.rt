ghost use Rattle.std.specs.Prelude.{◌≡◌, drop};
ghost use Rattle.run_core.specs.Exits.{number_without};

use std::alloc::AllocError;
use std::io;
use std::io::ErrorKind;

/// Why the program has no words.
#[derive(Clone, Copy)]
pub enum NoWords {
    /// An argument is no text.
    NotTexts,
    /// Memory ran out while the arguments were taken.
    Memory,
}

impl NoWords {
    /// The exit status of the program.
    pub fn number(self) -> u8
        ensures { result ≡ number_without self }
    {
        match self {
            NoWords::NotTexts => 9,
            NoWords::Memory => 7,
        }
    }
}

impl From<AllocError> for NoWords {
    ghost use Rattle.run_core.specs.declared.exit.NoWords.TheVariants.{Memory};
    ghost use Rattle.std.specs.Prelude.{◌≡◌};

    ghost from_gives = { λ _ n. n ≡ Memory };

    fn from(_: AllocError) -> NoWords {
        NoWords::Memory
    }
}

impl From<io::Error> for NoWords {
    ghost use Rattle.std.specs.IoError.{error_kind};
    ghost use Rattle.run_core.specs.Causes.{cause_of};
    ghost use Rattle.std.specs.Prelude.{◌≡◌};

    ghost from_gives = { λ e n. n ≡ cause_of (error_kind e) };

    fn from(fault: io::Error) -> NoWords {
        match fault.kind() {
            ErrorKind::OutOfMemory => NoWords::Memory,
            _ => NoWords::NotTexts,
        }
    }
}

/// The arguments after the first, which is the program's name.
pub fn without_name(arguments: &[String]) -> &[String]
    ensures { result.now ≡ drop 1 arguments.now }
{
    match arguments.split_first() {
        Some((_, words)) => words,
        None => arguments,
    }
}
