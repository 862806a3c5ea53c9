// A header that is within the limits, which its type says.
// Rests on the header of plans.
ghost use Rattle.plans.specs.Plan.{Accepted};

use plans::Header;

// Refusals 1 to 4 let it pass.
#[derive(Clone, Copy)]
pub struct AcceptedHeader {
    pub header: Header,
    pub ghost within_limits: { Accepted header },
}
