// What holds of each instance.
ghost use Rattle.std.specs.Prelude.{[]};
ghost use Rattle.basis.specs.Node.{IsOverColumns};

use instance::Instance;

/// The forms of an instance are over its columns, so that its root without cuts can be relaxed.
pub fn root_is_over_columns(instance: &Instance)
    ensures { IsOverColumns instance.now [] [] }
{
    instance.keeps_its_limits();
}
