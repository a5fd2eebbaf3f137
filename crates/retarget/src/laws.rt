ghost use Rattle.retarget.specs.Moved.{MovedLaw};

/// The moved call stands for the read one on the new chains. The call does nothing; its contract is the law.
pub fn moved_law()
    ensures law { MovedLaw }
{}
