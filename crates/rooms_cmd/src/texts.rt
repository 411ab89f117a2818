ghost use Rattle.std.specs.Prelude.{◌≡◌, IfOk};
ghost use Rattle.rooms_cmd.specs.Answers.{usage_text};

use input_core::Memory;
use std::alloc::Global;

/// How the program is called.
pub fn usage(alloc: Global) -> Result<Vec<u8>, Memory>
    ensures { IfOk result (λ v. v.items ≡ usage_text) }
{
    Ok(Vec::from_slice(
        alloc,
        b"usage:\nrooms solve INSTANCE TIMES MEASURES CERT [--budget N]\nrooms check INSTANCE TIMES MEASURES CERT\nrooms recert INSTANCE TIMES MEASURES CERT NEW\nrooms measure INSTANCE TIMES MEASURES\nrooms report INSTANCE TIMES MEASURES [--json]\nrooms demo N [--budget N]\n",
    )?)
}
