// What facts are judged by: a bundle's facts, and what follows from the rules.
ghost use Rattle.std.specs.Prelude.{◌≤◌};
ghost use Rattle.site.specs.Limits.{most_facts};

use bundle::Facts;
use clashes::Clashes;

#[derive(Drop)]
pub struct Cleaning<'a> {
    pub bundle: &'a [u8],
    pub facts: Facts,
    pub by: Clashes<'a>,
    ghost few: { facts.count ≤ most_facts },
}
