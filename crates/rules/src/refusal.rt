// Why a fact, a proof or a plan is refused, and at which position.
ghost use Rattle.std.specs.Prelude.{◌≡◌};
ghost use Rattle.rules.specs.declared.refusal.Reason.TheVariants.{Crowded};

use table::Full;

#[derive(Clone, Copy, PartialEq, Eq, Debug)]
pub enum Reason {
    Oversized,
    Crowded,
    Unfounded,
    Unfit,
    Stale,
    Unadmitted,
    Uncarried,
}

impl Reason {
    // The refusal for this reason, at a position.
    pub(crate) fn at(self, position: u32) -> Refused
        ensures { result ≡ record { reason = self; position = position } }
    {
        Refused {
            reason: self,
            position,
        }
    }
}

impl From<Full> for Reason {
    ghost from_gives = { λ _ reason. reason ≡ Crowded };

    fn from(_: Full) -> Reason {
        Reason::Crowded
    }
}

#[derive(Clone, Copy, PartialEq, Eq, Debug)]
pub struct Refused {
    pub reason: Reason,
    pub position: u32,
}
