//! Each function's contract is a law, and its body does nothing.
ghost use Rattle.std.specs.Prelude.{◌≡◌};
ghost use Rattle.abc_link.specs.declared.ends.TheConstants.{RING_SIZE};
ghost use Rattle.abc_link.specs.declared.ends.LinkOut.{LinkOut};
ghost use Rattle.abc_link.specs.declared.ends.LinkIn.{LinkIn};
ghost use Rattle.abc_link.specs.Links.{ArePaired, SameOut, SameIn};

/// The size of a ring by its number.
pub fn link_limits()
    ensures { RING_SIZE ≡ 8 }
{}

/// Two ends of one link stay its ends, whatever each does by itself.
pub fn ends_stay_paired<T>()
    ensures { (out out' : LinkOut T) (into into' : LinkIn T) → ArePaired out into
        → SameOut out out' → SameIn into into' → ArePaired out' into' }
{}
