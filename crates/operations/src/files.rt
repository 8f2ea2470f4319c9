// Rules and a bundle that were accepted, together.
ghost use Rattle.bundle.specs.Opened.{Accepted};

use bundle::Inputs;

#[derive(Drop)]
pub struct Files<'a> {
    pub rules: &'a [u8],
    pub bundle: &'a [u8],
    pub inputs: Inputs,
    ghost accepted: { Accepted rules.now bundle.now inputs.head inputs.facts },
}
