// What writing asks of a record: the fact that it is of. The console's own record is in the crate `records`.
ghost use Rattle.std.specs.Prelude.{◌≡◌};
ghost use Rattle.site.specs.declared.fact.Fact.{Fact};

use site::Fact;

pub trait HasFact: Copy {
    ghost fact_of: { Self → Fact };

    fn fact(self) -> Fact
        ensures { result ≡ fact_of self };
}
