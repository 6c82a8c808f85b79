// Skips.
ghost use Rattle.std.specs.Prelude.{◌≡◌};
ghost use Rattle.isa.specs.Instructions.{skip_if};

use isa::machine::File;

// The next instruction is skipped, or not.
pub fn skip_if(c: bool, f: File) -> File
    ensures { result ≡ skip_if c f }
{
    if c { f.next() } else { f }
}
