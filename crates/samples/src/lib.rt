// The worked samples, as theorems about the definitions.
#![tactic(auto)]

ghost use Rattle.samples.specs.Samples.{Samples};

// That all samples hold, as one list. The answer says nothing.
pub fn samples_hold() -> u8
    ensures { Samples }
{
    0
}
