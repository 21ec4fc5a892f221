//! Instances that are kept, moved to the front.

ghost use Rattle.std.specs.Prelude.{◌≡◌, ◌≤◌, ◌<◌, ◌+◌, ◌++◌, [], length, take, drop, if◌then◌else◌};

use dr_nested::Instance;

/// Moves the instance of a number, where it passes, behind those that are kept, and tells how many are kept then.
pub fn settle(instances: &mut Vec<Instance>, kept: usize, number: usize, passes: bool) -> usize
    requires before { kept ≤ number }
    requires there { number < length (instances.old).items }
    ensures front { take result (instances.new).items
        ≡ take kept (instances.old).items ++ (if passes then take 1 (drop number (instances.old).items) else []) }
    ensures rest { drop (number + 1) (instances.new).items ≡ drop (number + 1) (instances.old).items }
    ensures length { length (instances.new).items ≡ length (instances.old).items }
    ensures within { result ≤ number + 1 }
{
    if !passes {
        return kept;
    }
    instances.swap(kept, number);
    kept + 1
}
