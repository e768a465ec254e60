// The worked examples of the rules.
ghost use Rattle.rules.specs.Examples.{Examples};

/// The worked examples hold of the definitions: the answer says only that they do.
pub fn examples_hold() -> bool
    ensures { Examples }
{
    true
}
