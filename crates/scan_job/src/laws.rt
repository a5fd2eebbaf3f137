ghost use Rattle.scan_job.specs.Faults.{OneFaultLaw};

use base_types::fault_law;

/// A run answers one fault at most. It does nothing; its contract is the law.
pub fn one_fault_law()
    ensures law { OneFaultLaw }
{
    fault_law();
}
